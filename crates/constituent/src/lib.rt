// A constituent encoder of a block (000, 5.1.5.3): its step, its parity bit, and the two passes over a block's pairs, of which the second
// ends where it began. Two encoders go over two lists of pairs at a time.
//
// Internal: nothing here is a public entry. A function with a `requires` is called only where its caller has shown it.
#![tactic(auto)]

ghost use Rattle.std.specs.Prelude.{◌≡◌, ℕ, ◌+◌, ◌*◌, ◌/◌, ◌%◌, ◌<◌, ◌≤◌, length, replicate};
ghost use Rattle.bits.specs.Bits.{bit_of, byte_of};
ghost use Rattle.bits.specs.Lists.{written};
ghost use Rattle.card.specs.Modes.{block_bytes};
ghost use Rattle.constituent.specs.Pairs.{pair_at};
ghost use Rattle.constituent.specs.Encoder.{next, parity, state_at, start_of};
ghost use Rattle.constituent.specs.Loops.Bytes.{parities, byte_word, Doubling, ByBytes, StatesBy, ParitiesBy, pair_in};
ghost use Rattle.constituent.specs.Loops.Passes.{SameEnd, Ended, Started, Blocks, multiplexed};

// The three rows of M, by kind. A constant would be copied at each use.
static MATRICES: [[u8; 3]; 5] = [[1, 5, 7], [1, 5, 7], [3, 4, 2], [5, 7, 6], [1, 5, 7]];

// The step of an encoder with a pair. A state and a pair are plain bytes: a type for each would only add `.value` to the arithmetic.
fn step(taps: u16, state: u8, pair: u8) -> u8
    requires { (state < 8) × (pair < 4) }
    ensures { result ≡ next taps state pair }
{
    let free = state % 2 * 4 + state / 4 * 2 + (state / 2 + state) % 2;
    let b1 = (taps / 256 % 8) as u8;
    let b2 = (taps / 32 % 8) as u8;
    free ^ ((pair / 2 * b1) ^ (pair % 2 * b2))
}

// The parity bit of a pair: whether the ones among the tapped bits of state and inputs are odd in number.
fn parity_bit(taps: u16, state: u8, pair: u8) -> u8
    requires { (state < 8) × (pair < 4) }
    ensures { result ≡ parity taps state pair }
{
    let word = state * 4 + pair;
    let mask = (taps % 32) as u8;
    ((word & mask).count_ones() % 2) as u8
}

// Pair j of a byte.
pub fn pair_in(byte: u8, j: usize) -> u8
    requires { j < 4 }
    ensures { result ≡ pair_in byte j }
{
    (byte >> (6 - 2 * j)) % 4
}

// What a byte does to an encoder: its four parity bits, two places each, and eight times the state after it. The index is a pair's place in
// the byte.
fn byte_word(taps: u16, state: u8, byte: u8) -> u16
    requires { state < 8 }
    ensures { result ≡ byte_word taps state byte }
{
    let mut s = state;
    let mut parities: u16 = 0;
    for j in 0..4 {
        let u = pair_in(byte, j);
        parities = parities * 4 + u16::from(parity_bit(taps, s, u));
        s = step(taps, s, u);
    }
    parities * 256 + u16::from(s) * 8
}

// As many entries of the table again: an encoder is linear, so a byte does what its highest bit does and what the rest does.
fn double(taps: u16, half: usize, table: &mut [u16; 256])
    requires { Doubling taps half table.old }
    ensures { table.new ≡ written (2 * half) (byte_word taps 0) table.old }
{
    let top = byte_word(taps, 0, half as u8);
    // By index, since both entries are of one table, which a loop over two slices would have to split first.
    for i in 0..half {
        table[half + i] = table[i] ^ top;
    }
}

// What each byte does to an encoder in the state zero: the byte zero does nothing.
fn by_bytes(taps: u16, table: &mut [u16; 256])
    ensures { ByBytes taps table.new }
{
    table[0] = 0;
    for bit in 0u8..8 {
        double(taps, 1 << bit, table);
    }
}

// Where pass two starts when pass one ended at sn.
fn start_of(kind: usize, sn: u8) -> u8
    requires { (kind < 5) × (sn < 8) }
    ensures { result ≡ start_of kind sn }
{
    let [row1, row2, row3] = MATRICES[kind];
    (sn / 4 % 2 * row1) ^ ((sn / 2 % 2 * row2) ^ (sn % 2 * row3))
}

// Four pairs in a byte.
pub fn four(a: u8, b: u8, c: u8, d: u8) -> u8
    requires { (a < 4) × (b < 4) × (c < 4) × (d < 4) }
    ensures { result ≡ a * 64 + b * 16 + c * 4 + d }
{
    a * 64 + b * 16 + c * 4 + d
}

// The states of encoder 1 and encoder 2.
#[derive(Clone, Copy)]
pub struct States {
    pub first: u8,
    pub second: u8,
}

impl States {
    // Where pass two of both encoders starts when pass one ended here.
    fn ring_starts(self, kind: usize) -> States
        requires { (kind < 5) × (self.first < 8) × (self.second < 8) }
        ensures { (result.first ≡ start_of kind self.first) × (result.second ≡ start_of kind self.second) }
    {
        States {
            first: start_of(kind, self.first),
            second: start_of(kind, self.second),
        }
    }
}

// A shorter list that takes every encoder from the state zero to where the bytes take it: an encoder without input is back after seven
// bytes, so bytes that stand 56 apart do as much as their sum. `sums` is zero before: an array that is handed out is copied, which takes
// 20 ns a list.
fn fold(bytes: &[u8], sums: &mut [u8; 63])
    requires { sums.old ≡ replicate 63 0 }
    ensures { SameEnd bytes.now sums.new }
{
    let chunks = bytes.chunks_exact(56);
    let rest = chunks.remainder();
    for chunk in chunks {
        bits::add_bytes(chunk, sums);
    }
    bits::add_bytes(rest, sums);
}

// What bytes do to an encoder with some taps. The table is borrowed: one that is moved in is copied, which takes 4 ns a
// block.
#[derive(Drop)]
struct Encoder<'a> {
    taps: u16,
    // What the byte zero does, eight bits for each state: eight times the state after it, and the parity bits.
    states: u64,
    parities: u64,
    // What each byte does to the state zero.
    table: &'a [u16; 256],
    ghost after: { StatesBy taps states },
    ghost gives: { ParitiesBy taps parities },
    ghost words: { ByBytes taps table.now },
}

impl<'a> Encoder<'a> {
    fn new(taps: u16, table: &'a [u16; 256]) -> Self
        requires { ByBytes taps table.now }
        ensures { result.taps ≡ taps }
    {
        let mut states: u64 = 0;
        let mut parities: u64 = 0;
        for s in (0u8..8).rev() {
            let word = byte_word(taps, s, 0);
            states = states * 256 + u64::from(word % 256);
            parities = parities * 256 + u64::from(word / 256);
        }
        Encoder {
            taps,
            states,
            parities,
            table,
        }
    }

    // Eight times the state after a byte, from eight times the state before it.
    fn moved(&self, state: u64, byte: u8) -> u64
        requires { state < 64 }
        ensures small { result < 64 }
        ensures after { (s : ℕ) → s < 8 → state ≡ s * 8 → result ≡ state_at self.now.taps (pair_in byte) s 4 * 8 }
    {
        ((self.states >> state) ^ u64::from(self.table[usize::from(byte)])) / 8 % 8 * 8
    }

    // The parity bits that a byte gives, from eight times the state before it.
    fn given(&self, state: u64, byte: u8) -> u8
        requires { state < 64 }
        ensures { (s : ℕ) → s < 8 → state ≡ s * 8 → result ≡ parities self.now.taps (pair_in byte) s 4 }
    {
        ((self.parities >> state) % 256) as u8 ^ (self.table[usize::from(byte)] / 256) as u8
    }

    // Pass one of both encoders, from the state zero to the end of two lists: a byte at a time. Each step waits for the one before it, and the
    // other encoder's steps fill the wait: so both go in one loop, here and in pass two. A loop over the two would be longer.
    fn walk(&self, bytes: &[u8], second: &[u8]) -> States
        requires { length bytes.now ≤ length second.now }
        ensures { Ended self.now.taps bytes.now second.now (length bytes.now) result }
    {
        let mut a: u64 = 0;
        let mut b: u64 = 0;
        for (x, y) in bytes.iter().zip(second) {
            a = self.moved(a, *x);
            b = self.moved(b, *y);
        }
        States {
            first: (a / 8) as u8,
            second: (b / 8) as u8,
        }
    }

    // Pass one of both encoders, from the state zero to the end of two lists. Long lists are folded first, which is faster.
    fn pass_one(&self, bytes: &[u8], second: &[u8]) -> States
        requires { length bytes.now ≤ length second.now }
        ensures { Ended self.now.taps bytes.now second.now (length bytes.now) result }
    {
        let n = bytes.len();
        if n < 64 {
            return self.walk(bytes, second);
        }
        let mut first = [0u8; 63];
        let mut other = [0u8; 63];
        fold(bytes, &mut first);
        fold(&second[..n], &mut other);
        let end = 56 + n % 7;
        self.walk(&first[..end], &other[..end])
    }

    // Pass two of both encoders: the parity bits of both, multiplexed, eight to a byte, at the start of `out`.
    fn pack_parity(&self, kind: usize, from: States, bytes: &[u8], second: &[u8], out: &mut [u8])
        requires blocks { Blocks kind bytes.now second.now }
        requires started { Started kind self.now.taps bytes.now second.now from × (block_bytes kind ≤ length out.old) }
        ensures { out.new ≡ written (block_bytes kind) (byte_of (multiplexed kind self.now.taps (pair_at (bit_of bytes.now)) (pair_at (bit_of second.now)))) out.old }
    {
        let mut a = u64::from(from.first) * 8;
        let mut b = u64::from(from.second) * 8;
        // `out` by index, as in `bits::put`, and so `second` too: a zip in an `enumerate` is no plainer.
        for (i, x) in bytes.iter().enumerate() {
            let y = second[i];
            let p = self.given(a, *x);
            a = self.moved(a, *x);
            let q = self.given(b, y);
            b = self.moved(b, y);
            out[i] = 2 * p + q;
        }
    }
}

// The parity bits of both encoders, multiplexed, eight to a byte, at the start of `out`: the first goes over `bytes`, the other over `second`.
pub fn parity_bytes(kind: usize, taps: u16, bytes: &[u8], second: &[u8], out: &mut [u8])
    requires { Blocks kind bytes.now second.now × (block_bytes kind ≤ length out.old) }
    ensures { out.new ≡ written (block_bytes kind) (byte_of (multiplexed kind taps (pair_at (bit_of bytes.now)) (pair_at (bit_of second.now)))) out.old }
{
    let mut table = [0u16; 256];
    by_bytes(taps, &mut table);
    let encoder = Encoder::new(taps, &table);
    let from = encoder.pass_one(bytes, second).ring_starts(kind);
    encoder.pack_parity(kind, from, bytes, second, out);
}
