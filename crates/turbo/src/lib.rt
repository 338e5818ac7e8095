// Turbo encoding of a block (000, 5.1.5.3): the parity bits of two constituent encoders, of which the second reads the pairs of the block
// interleaved, and puncturing.
//
// Internal: nothing here is a public entry. A function with a `requires` is called only where its caller has shown it.
#![tactic(auto)]

ghost use Rattle.std.specs.Prelude.{◌≡◌, ◌+◌, ◌*◌, ◌/◌, ◌<◌, ◌≤◌, eqb, length};
ghost use Rattle.bits.specs.Bits.{bit_of, byte_of};
ghost use Rattle.bits.specs.Lists.{written};
ghost use Rattle.card.specs.Modes.{block_bytes};
ghost use Rattle.constituent.specs.Pairs.{pair_count, pair_at};
ghost use Rattle.turbo.specs.Puncture.{pattern, kept_count};
ghost use Rattle.turbo.specs.Loops.Keeping.{Puncturing, kept_from, two_rows, punctured, Inputs};
ghost use Rattle.turbo.specs.Parity.{kept_bit};

use coding::Coding;

// The turbo encoder of a block: its kind, its rate and the taps, of which the low eleven bits count. Every kind serves with every rate, so a
// `Coding` would ask more.
#[derive(Clone, Copy)]
pub struct Encoder {
    pub kind: usize,
    pub rate: usize,
    pub taps: u16,
    pub ghost kind_in_range: { kind < 5 },
    pub ghost rate_in_range: { rate < 2 },
}

// The puncturing pattern of each rate, as printed. Place 0 is the rightmost, the lowest bit.
const KEPT: [u32; 2] = [0b1111111111111111, 0b1000000010000000];

// Pair t of some bytes.
fn pair_of(bytes: &[u8], t: usize) -> u8
    requires { t < 4 * length bytes.now }
    ensures { (result ≡ pair_at (bit_of bytes.now) t) × (result < 4) }
{
    constituent::pair_in(bytes[t / 4], t % 4)
}

// The four pairs that are kept of two rows of sixteen, from time t on: those at places a and b of each.
fn two_rows(packed: &[u8], t: usize, a: usize, b: usize) -> u8
    requires { (t + 32 ≤ 4 * length packed.now) × (length packed.now < 65536) × (a < 16) × (b < 16) }
    ensures { result ≡ two_rows (pair_at (bit_of packed.now)) t a b }
{
    constituent::four(
        pair_of(packed, t + a),
        pair_of(packed, t + b),
        pair_of(packed, t + 16 + a),
        pair_of(packed, t + 16 + b),
    )
}

impl From<Coding> for Encoder {
    ghost from_gives = { λ c e. (e.kind ≡ c.kind) × (e.rate ≡ c.rate) × (e.taps ≡ c.taps) };

    fn from(coding: Coding) -> Self {
        Encoder {
            kind: coding.kind,
            rate: coding.rate,
            taps: coding.taps,
        }
    }
}

impl Encoder {
    // How many parity bits of a block are kept.
    pub fn kept_count(self) -> usize
        ensures { result ≡ kept_count self.kind self.rate }
    {
        let pairs = 4 * card::block_bytes(self.kind);
        let ones = KEPT[self.rate].count_ones() as usize;
        pairs / 8 * ones
    }

    // Whether the parity bits of every time are kept: sixteen ones.
    fn keeps_all(self) -> bool
        ensures { result ≡ eqb (pattern self.rate) 65535 }
    {
        KEPT[self.rate] == 65535
    }

    // The first place of the pattern that is kept, from a place on, or 16, where a one is set behind the last place. 16 and no Option, as the
    // definition `kept_from` has it.
    fn next_kept(self, from: usize) -> usize
        requires { from < 16 }
        ensures { result ≡ kept_from self.rate from }
    {
        let ended = KEPT[self.rate] | 65536;
        from + (ended >> from).trailing_zeros() as usize
    }

    // The kept of the parity bits in `packed`, eight to a byte, at the start of `out`, at a rate that keeps two times of every sixteen: two
    // rows of sixteen give a byte.
    fn keep(self, packed: &[u8], out: &mut [u8])
        requires { Puncturing self.kind self.rate packed.now out.old }
        ensures { out.new ≡ written (kept_count self.kind self.rate / 8) (byte_of (punctured self.kind self.rate (bit_of packed.now))) out.old }
    {
        let a = self.next_kept(0);
        let b = self.next_kept(a + 1);
        let n = self.kept_count() / 8;
        // The rows by index, as in `bits::pack`.
        for (i, byte) in out[..n].iter_mut().enumerate() {
            *byte = two_rows(packed, 32 * i, a, b);
        }
    }

    // The kept parity bits of a block, eight to a byte, at the start of `out`. `second` holds the pairs that encoder 2 reads. A rate that
    // keeps all needs no puncturing. Memory is fixed, with no heap: the array has the most that a block has.
    fn kept_parity(self, bytes: &[u8], second: &[u8], out: &mut [u8])
        requires { Inputs self.kind bytes.now second.now × (kept_count self.kind self.rate / 8 ≤ length out.old) }
        ensures { out.new ≡ written (kept_count self.kind self.rate / 8) (byte_of (kept_bit self.kind self.rate self.taps (bit_of bytes.now))) out.old }
    {
        if self.keeps_all() {
            constituent::parity_bytes(self.kind, self.taps, bytes, second, out);
            return;
        }
        let mut packed = [0u8; 520];
        constituent::parity_bytes(self.kind, self.taps, bytes, second, &mut packed);
        self.keep(&packed, out);
    }

    // The kept parity bits of a block, eight to a byte, at the start of `out`, with room for what is made on the way: the block's pairs twice,
    // and the bytes that encoder 2 reads. A function of its own in the library too, so that a short block takes little stack.
    #[inline(never)]
    fn encode_in<const PAIRS: usize, const BYTES: usize>(self, bytes: &[u8], out: &mut [u8])
        requires whole { (length bytes.now ≡ block_bytes self.kind) × (kept_count self.kind self.rate / 8 ≤ length out.old) }
        requires room { (8 * block_bytes self.kind ≤ PAIRS) × (block_bytes self.kind ≤ BYTES) }
        requires small { (PAIRS < 65536) × (BYTES < 65536) }
        ensures { out.new ≡ written (kept_count self.kind self.rate / 8) (byte_of (kept_bit self.kind self.rate self.taps (bit_of bytes.now))) out.old }
    {
        let mut pairs = [0u8; PAIRS];
        let mut second = [0u8; BYTES];
        pair_interleaver::second_bytes(self.kind, bytes, &mut pairs, &mut second);
        self.kept_parity(bytes, &second, out);
    }

    // The kept parity bits of a block, eight to a byte, at the start of `out`. Frame control's short block takes no long arrays.
    pub fn encode(self, bytes: &[u8], out: &mut [u8])
        requires { (length bytes.now ≡ block_bytes self.kind) × (kept_count self.kind self.rate / 8 ≤ length out.old) }
        ensures { out.new ≡ written (kept_count self.kind self.rate / 8) (byte_of (kept_bit self.kind self.rate self.taps (bit_of bytes.now))) out.old }
    {
        if self.kind == 0 {
            self.encode_in::<128, 16>(bytes, out);
        } else {
            self.encode_in::<4160, 520>(bytes, out);
        }
    }
}
