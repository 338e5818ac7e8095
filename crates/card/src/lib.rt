// The job card (paper 01's term): eleven or twelve bytes that say which band, block, rate, modulation and taps a job uses, and in
// version 2 how many blocks and copies.
//
//   version 4 bits | band 2 | kind 3 | rate 1 | modulation 2 | taps 11 | spare 1 (0) |
//   in version 2: blocks less one 2 | copy code 3 | padding 3 (0) |
//   serial 64
//
// Public entries: `read_card` and `read_fields`. Everything else that is `pub` is internal.
#![tactic(auto)]

ghost use Rattle.std.specs.Prelude.{◌≡◌, ◌++◌, true, ◌&&◌, ◌||◌, not, ◌<◌, ◌≤◌, eqb, length, drop};
ghost use Rattle.refusal.specs.Report.{answer};
ghost use Rattle.card.specs.Modes.{block_bytes, carrier_bits, defined_mode, single, defined_counts, defined};
ghost use Rattle.card.specs.Card.{card_bytes, copy_count, copy_code, card_of, padding_of, fields_of};
ghost use Rattle.card.specs.Entries.{is_version, versioned, read_card, read_fields};
ghost use Rattle.card.specs.Gate.{gate};
ghost use Rattle.card.specs.Loops.Heads.{head_of};

use refusal::Refusal;

// By kind: the bytes of a block.
const BLOCK_BYTES: [usize; 5] = [16, 72, 136, 264, 520];

// By code: the copies of a payload.
const COPY_COUNTS: [u64; 8] = [1, 2, 4, 5, 7, 11, 0, 0];

// By modulation: the bits on a carrier.
const CARRIER_BITS: [usize; 3] = [1, 2, 4];

// A card's fields. Each is wide enough to hand over a value that does not fit the card.
#[derive(Clone, Copy)]
pub struct Card {
    pub version: u64,
    pub band: u64,
    pub kind: u64,
    pub rate: u64,
    pub modulation: u64,
    pub taps: u64,
    pub spare: u64,
    pub serial: u64,
    pub blocks: u64,
    pub copies: u64,
}

// The bytes of a block of a kind. A kind, a band and a modulation stay numbers after the card is read: the definitions `block_bytes`,
// `carrier_bits` and `defined_mode` take numbers, and the laws speak of each kind below five.
pub fn block_bytes(kind: usize) -> usize
    requires { kind < 5 }
    ensures { result ≡ block_bytes kind }
{
    BLOCK_BYTES[kind]
}

// The bits on a carrier of a modulation.
pub fn carrier_bits(modulation: usize) -> usize
    requires { modulation < 3 }
    ensures { result ≡ carrier_bits modulation }
{
    CARRIER_BITS[modulation]
}

// The copies of a code; 0 where it has none, as the definition `copy_count` has it.
fn copy_count(code: u64) -> u64
    requires { code < 8 }
    ensures { result ≡ copy_count code }
{
    COPY_COUNTS[code as usize]
}

// The code of a count of copies; 6, which no copies have, where it has none: no Option, since the definition `copy_code` and the laws of
// what is served say it so.
pub fn copy_code(copies: u64) -> u64
    ensures { result ≡ copy_code copies }
{
    COPY_COUNTS[..6]
        .iter()
        .position(|count| *count == copies)
        .unwrap_or(6) as u64
}

// The bytes of a card of some version.
pub fn card_bytes(version: u64) -> usize
    ensures { result ≡ card_bytes version }
{
    if version == 2 { 12 } else { 11 }
}

// What stands before the serial, as the four bytes of version 2; in eleven bytes the fourth is missing and counts as 0.
fn head_of(card: &[u8]) -> u64
    requires { 11 ≤ length card.now }
    ensures { result ≡ head_of card.now }
{
    if card.len() == 12 {
        return bits::number_at(card, 0, 4);
    }
    bits::number_at(card, 0, 3) * 256
}

// The fields in eleven or twelve bytes.
fn unpack(card: &[u8]) -> Card
    requires { (eqb (length card.now) 11 || eqb (length card.now) 12) ≡ true }
    ensures { result ≡ card_of card.now }
{
    let head = head_of(card);
    let serial = bits::number_at(card, card.len() - 8, 8);
    Card {
        version: (head >> 28) % 16,
        band: (head >> 26) % 4,
        kind: (head >> 23) % 8,
        rate: (head >> 22) % 2,
        modulation: (head >> 20) % 4,
        taps: (head >> 9) % 2048,
        spare: (head >> 8) % 2,
        serial,
        blocks: (head >> 6) % 4 + 1,
        copies: copy_count((head >> 3) % 8),
    }
}

// Whether there is such a version.
pub fn is_version(version: u64) -> bool
    ensures { result ≡ is_version version }
{
    version == 1 || version == 2
}

impl Card {
    // A version that there is, and nothing in the spare bit.
    pub fn is_versioned(&self) -> bool
        ensures { result ≡ versioned self.now }
    {
        is_version(self.version) && self.spare == 0
    }

    // Rate 1 goes only with the largest block.
    fn has_served_rate(&self) -> bool
        ensures { result ≡ (eqb self.now.rate 0 || eqb self.now.rate 1 && eqb self.now.kind 4) }
    {
        self.rate == 0 || self.rate == 1 && self.kind == 4
    }

    // Frame control goes only with QPSK.
    fn has_served_modulation(&self) -> bool
        ensures { result ≡ (not (eqb self.now.kind 0) || eqb self.now.modulation 1) }
    {
        self.kind != 0 || self.modulation == 1
    }

    // Whether the mode is defined.
    #[tactic(auto, unfolding(crate::specs::Modes::defined_mode))]
    fn has_defined_mode(&self) -> bool
        ensures { result ≡ defined_mode self.now.band self.now.kind self.now.rate self.now.modulation }
    {
        self.band <= 3
            && self.kind <= 4
            && self.modulation <= 2
            && self.has_served_rate()
            && self.has_served_modulation()
    }

    // One block and one copy.
    pub fn is_single(&self) -> bool
        ensures { result ≡ single self.now }
    {
        self.blocks == 1 && self.copies == 1
    }

    // Whether the counts are defined for the kind: more copies than one go only with a payload.
    fn has_defined_counts(&self) -> bool
        ensures { result ≡ defined_counts self.now.kind self.now.blocks self.now.copies }
    {
        self.is_single() || self.kind != 0 && copy_code(self.copies) < 6 && self.blocks == 1
    }

    // Whether the mode and the counts are defined.
    pub fn is_defined(&self) -> bool
        ensures { result ≡ defined self.now }
    {
        self.has_defined_mode() && self.has_defined_counts()
    }

    // The ten fields in order at the start of `fields`. One by one: copying a slice needs memmove, and the library is to need memcpy and
    // memset alone (include/hplc.h, tests/c.sh).
    fn put_fields(&self, fields: &mut [u64])
        requires { 10 ≤ length fields.old }
        ensures { fields.new ≡ fields_of self.now ++ drop 10 fields.old }
    {
        fields[0] = self.version;
        fields[1] = self.band;
        fields[2] = self.kind;
        fields[3] = self.rate;
        fields[4] = self.modulation;
        fields[5] = self.taps;
        fields[6] = self.spare;
        fields[7] = self.serial;
        fields[8] = self.blocks;
        fields[9] = self.copies;
    }
}

// Whether twelve bytes of version 2 have something in the padding.
fn is_padded(card: &[u8], version: u64) -> bool
    ensures { result ≡ (eqb (length card.now) 12 && eqb version 2 && not (eqb (padding_of card.now) 0)) }
{
    card.len() == 12 && version == 2 && card[3] % 8 != 0
}

// Whether a card of some version has so many bytes.
pub fn is_length(n: usize) -> bool
    ensures { result ≡ (eqb n 11 || eqb n 12) }
{
    n == 11 || n == 12
}

// The card in some bytes, or refusal 1, 2, 10 or 3.
pub fn read_card(card: &[u8]) -> Result<Card, Refusal>
    ensures { answer result ≡ read_card card.now }
{
    if !is_length(card.len()) {
        return Err(Refusal::CardLength(card.len()));
    }
    let c = unpack(card);
    if !c.is_versioned() || is_padded(card, c.version) {
        return Err(Refusal::Version);
    }
    if card.len() != card_bytes(c.version) {
        return Err(Refusal::VersionLength);
    }
    if !c.is_defined() {
        return Err(Refusal::Mode);
    }
    Ok(c)
}

// The gate of the entries above: the card in some bytes, where its kind is one from `first` to `last`, or refusal 1, 2, 10 or 3.
pub fn served_card(card: &[u8], first: u64, last: u64) -> Result<Card, Refusal>
    ensures { answer result ≡ gate first last card.now }
{
    let c = read_card(card)?;
    if c.kind < first || last < c.kind {
        return Err(Refusal::Mode);
    }
    Ok(c)
}

// The fields of the card in some bytes at the start of `fields`, or refusal 1, 2, 10, 3 or 5.
pub fn read_fields(card: &[u8], fields: &mut [u64]) -> Result<usize, Refusal>
    ensures answer { answer result ≡ (read_fields card.now fields.old).report }
    ensures fields { fields.new ≡ (read_fields card.now fields.old).out }
{
    let c = read_card(card)?;
    if fields.len() < 10 {
        return Err(Refusal::Room(10));
    }
    c.put_fields(fields);
    Ok(10)
}
