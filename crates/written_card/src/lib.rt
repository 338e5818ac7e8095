// Writing a job card (paper 01's term) from its fields, and moving one from one version to the other.
//
// Public entries: `write_card` and `move_card`. Everything else is internal.
#![tactic(auto)]

ghost use Rattle.std.specs.Prelude.{◌≡◌, true, cond, not, ◌&&◌, ◌||◌, ℕ, ◌+◌, ◌^◌, ◌<◌, ◌≤◌, eqb, ltb, length};
ghost use Rattle.bits.specs.Lists.{written};
ghost use Rattle.refusal.specs.declared.Refusal.TheVariants.{CardLength, Version};
ghost use Rattle.refusal.specs.Report.{answer, refusal};
ghost use Rattle.card.specs.Modes.{defined, single};
ghost use Rattle.card.specs.Card.{card_bytes};
ghost use Rattle.written_card.specs.Entries.{put_into, write_card, in_version, move_card};
ghost use Rattle.written_card.specs.Loops.Fields.{Fitting, head_of, card_byte, put_card};

use card::Card;
use refusal::Refusal;

// A head of so many bytes and a serial at the start of `out`.
fn put_bytes(bytes: usize, head: u64, serial: u64, out: &mut [u8])
    requires { (bytes ≤ 4) × (bytes + 8 ≤ length out.old) }
    ensures { out.new ≡ written (bytes + 8) (card_byte bytes head serial) out.old }
{
    bits::put_number(head, bytes, out);
    bits::put_number(serial, 8, &mut out[bytes..]);
}

// Whether version 1 is to say more than one block or one copy.
fn is_unsaid(c: &Card) -> bool
    ensures { result ≡ (eqb c.now.version 1 && not (single c.now)) }
{
    c.version == 1 && !c.is_single()
}

// Whether a card's mode is defined and its taps fit eleven bits.
fn is_writable(c: &Card) -> bool
    ensures { result ≡ (defined c.now && ltb c.now.taps (2 ^ 11)) }
{
    c.is_defined() && c.taps < 2048
}

// A card whose fields, all but the serial, fit their bits in version 2.
#[derive(Clone, Copy)]
struct FittingCard {
    card: Card,
    ghost fits: { Fitting card },
}

impl FittingCard {
    // What stands before the serial, as the four bytes of version 2.
    fn head(&self) -> u64
        ensures { result ≡ head_of self.now.card }
    {
        let c = self.card;
        let mode = (((c.version * 4 + c.band) * 8 + c.kind) * 2 + c.rate) * 4 + c.modulation;
        let counts = (c.blocks - 1) * 8 + card::copy_code(c.copies);
        ((mode * 2048 + c.taps) * 2 + c.spare) * 256 + counts * 8
    }

    // The card at the start of `out`.
    fn store(&self, out: &mut [u8])
        requires { (self.now.card.version ≡ 1 → single self.now.card ≡ true) × (card_bytes self.now.card.version ≤ length out.old) }
        ensures { out.new ≡ put_into self.now.card out.old }
    {
        let c = self.card;
        let head = self.head();
        if c.version == 2 {
            put_bytes(4, head, c.serial, out);
        } else {
            put_bytes(3, head / 256, c.serial, out);
        }
    }

    // The card at the start of `out`, or refusal 5 or 11.
    fn put(&self, out: &mut [u8]) -> Result<usize, Refusal>
        ensures answer { answer result ≡ (put_card self.now.card out.old).report }
        ensures bytes { out.new ≡ (put_card self.now.card out.old).out }
    {
        let c = self.card;
        let bytes = card::card_bytes(c.version);
        if out.len() < bytes {
            return Err(Refusal::Room(bytes));
        }
        if is_unsaid(&c) {
            return Err(Refusal::Counts);
        }
        self.store(out);
        Ok(bytes)
    }
}

// The fields as the bytes of their version at the start of `out`, or refusal 2, 3, 5 or 11.
pub fn write_card(c: Card, out: &mut [u8]) -> Result<usize, Refusal>
    ensures answer { answer result ≡ (write_card c out.old).report }
    ensures bytes { out.new ≡ (write_card c out.old).out }
{
    if !c.is_versioned() {
        return Err(Refusal::Version);
    }
    if !is_writable(&c) {
        return Err(Refusal::Mode);
    }
    FittingCard { card: c }.put(out)
}

// The same card in another version.
fn in_version(version: u64, c: Card) -> Card
    ensures { result ≡ in_version version c }
{
    Card { version, ..c }
}

// Why a card of so many bytes is not moved to a version that there is not.
fn no_version(n: usize) -> Refusal
    ensures { refusal {A = ℕ} result ≡ cond (eqb n 11 || eqb n 12) (refusal Version) (refusal (CardLength n)) }
{
    if card::is_length(n) {
        Refusal::Version
    } else {
        Refusal::CardLength(n)
    }
}

// The card in some bytes as one of the version asked for at the start of `out`, or refusal 1, 2, 10, 3, 5 or 11.
pub fn move_card(card: &[u8], version: u64, out: &mut [u8]) -> Result<usize, Refusal>
    ensures answer { answer result ≡ (move_card card.now version out.old).report }
    ensures bytes { out.new ≡ (move_card card.now version out.old).out }
{
    if !card::is_version(version) {
        return Err(no_version(card.len()));
    }
    let c = card::read_card(card)?;
    let moved = in_version(version, c);
    FittingCard { card: moved }.put(out)
}
