// Bits of bytes, most significant first, four bytes of a list as one word, and the small loops over slices that every crate above uses.
//
// Internal: nothing here is a public entry. A function with a `requires` is called only where its caller has shown it.
#![tactic(auto)]

ghost use Rattle.std.specs.Prelude.{◌≡◌, not, ◌++◌, ℕ, ◌+◌, ◌-◌, ◌*◌, ◌/◌, ◌%◌, ◌^◌, ◌<◌, ◌≤◌, eqb, length, get_or, slice_index, EachIndex, drop, MatchOption};
ghost use Rattle.std.specs.Int.Bits.{bit_xor};
ghost use Rattle.bits.specs.Lists.{tabulate, written, first_above};
ghost use Rattle.bits.specs.Bits.{bit_at, bit_of, byte_of, field};
ghost use Rattle.bits.specs.Sums.{count};
ghost use Rattle.bits.specs.Loops.Words.{nibble, word_byte, stored};

// The largest element, or 0 where there is none. With `max` it takes 14 % longer.
fn largest(s: &[u8]) -> u8
    ensures { EachIndex s.now (λ k. slice_index s.now k ≤ result) }
{
    let mut most: u8 = 0;
    for x in s {
        if most < *x {
            most = *x;
        }
    }
    most
}

// The lowest index of an element above `limit`, if there is one. The largest element is found much faster, so the search runs only
// where there is something to find.
pub fn first_above(s: &[u8], limit: u8) -> Option<usize>
    ensures { MatchOption result (length s.now ≤ first_above limit s.now) (λ i. (i ≡ first_above limit s.now) × (i < length s.now)) }
{
    if largest(s) <= limit {
        return None;
    }
    s.iter().position(|x| limit < *x)
}

// All of `src` at the start of `out`. By a loop: `copy_from_slice` needs memmove, and the library is to need memcpy and memset alone
// (include/hplc.h, tests/c.sh). With a zip of `iter_mut` the goal `returns` stays open.
pub fn put(src: &[u8], out: &mut [u8])
    requires { length src.now ≤ length out.old }
    ensures { out.new ≡ src.now ++ drop (length src.now) out.old }
{
    for (i, x) in src.iter().enumerate() {
        out[i] = *x;
    }
}

// The number in n bytes from `at` on, the highest byte first. By a loop: n is not fixed, and `from_be_bytes` takes an array of eight, into
// which they would have to be put first.
pub fn number_at(bytes: &[u8], at: usize, n: usize) -> u64
    requires { (n ≤ 8) × (at + n ≤ length bytes.now) }
    ensures { result ≡ field bytes.now (8 * at) (8 * n) }
{
    let mut number: u64 = 0;
    for byte in &bytes[at..at + n] {
        number = number * 256 + u64::from(*byte);
    }
    number
}

// The lowest n bytes of a number at the start of `out`, the highest byte first. The slice may be longer, as callers' slices are, here and
// in `fill` and `pack`: so how many are written is a parameter beside it, as the contracts have it.
pub fn put_number(number: u64, n: usize, out: &mut [u8])
    requires { (n ≤ 8) × (n ≤ length out.old) }
    ensures { out.new ≡ written n (λ k. number / 2 ^ (8 * (n - 1 - k)) % 256) out.old }
{
    put(&number.to_be_bytes()[8 - n..], out);
}

// One value, `count` times, at the start of `out`.
pub fn fill(count: usize, value: u8, out: &mut [u8])
    requires { count ≤ length out.old }
    ensures { out.new ≡ written count (λ _. value) out.old }
{
    out[..count].fill(value);
}

// The exclusive-or of each byte with what stands at its place in `out`. By index, as in `put`.
pub fn add_bytes(bytes: &[u8], out: &mut [u8])
    requires { length bytes.now ≤ length out.old }
    ensures { out.new ≡ written (length bytes.now)
        (λ k. bit_xor (get_or bytes.now k 0) (get_or out.old k 0)) out.old }
{
    for (i, byte) in bytes.iter().enumerate() {
        out[i] ^= *byte;
    }
}

// Four bytes, from a place on and evenly apart, as a word.
pub fn gather(from: &[u8], at: usize, apart: usize) -> u32
    requires { at + 3 * apart < length from.now }
    ensures { (c : ℕ) → c < 4 → word_byte result c ≡ get_or from.now (c * apart + at) 0 }
{
    u32::from_le_bytes([
        from[at],
        from[apart + at],
        from[2 * apart + at],
        from[3 * apart + at],
    ])
}

// A word's four bytes, stored from a place on and evenly apart.
pub fn scatter(word: u32, at: usize, apart: usize, to: &mut [u8])
    requires { at + 3 * apart < length to.old }
    ensures { to.new ≡ stored 4 (λ c. c * apart + at) (word_byte word) to.old }
{
    let [a, b, c, d] = word.to_le_bytes();
    to[at] = a;
    to[apart + at] = b;
    to[2 * apart + at] = c;
    to[3 * apart + at] = d;
}

// A word whose bytes are rotated up so many places.
pub fn rotated(word: u32, by: u32) -> u32
    requires { by < 4 }
    ensures { (b : ℕ) → b < 4 → word_byte result b ≡ word_byte word ((b + (4 - by)) % 4) }
{
    word.rotate_left(by * 8)
}

// A word whose bytes are rotated back down so many places. Up and down are a function each: either is one call of the library and has a law
// of its own, and with the direction as a parameter there would be a choice more at each nibble and no line less.
pub fn rotated_back(word: u32, by: u32) -> u32
    requires { by < 4 }
    ensures { (b : ℕ) → b < 4 → word_byte result b ≡ word_byte word ((b + by) % 4) }
{
    word.rotate_right(by * 8)
}

// By number below 16: its four bits, the first in the lowest byte.
const NIBBLES: [u32; 16] = [
    0, 0x1000000, 0x10000, 0x1010000, 0x100, 0x1000100, 0x10100, 0x1010100, 1, 0x1000001, 0x10001,
    0x1010001, 0x101, 0x1000101, 0x10101, 0x1010101,
];

// The bits of a byte, one an element, at the start of `out`.
fn put_bits(words: &[u32; 16], byte: u8, out: &mut [u8])
    requires { (words.now ≡ tabulate 16 nibble) × (8 ≤ length out.old) }
    ensures { out.new ≡ written 8 (λ j. bit_at (7 - j) byte) out.old }
{
    scatter(words[usize::from(byte / 16)], 0, 1, out);
    scatter(words[usize::from(byte % 16)], 4, 1, out);
}

// The bits of some bytes, one an element, at the start of `out`.
pub fn unpack(bytes: &[u8], out: &mut [u8])
    requires { (length bytes.now < 65536) × (8 * length bytes.now ≤ length out.old) }
    ensures { out.new ≡ written (8 * length bytes.now) (bit_of bytes.now) out.old }
{
    // A local, since a constant that is indexed in a loop is copied at each turn, and with a static this takes 8 % longer.
    let words = NIBBLES;
    // By index: with a zip of `chunks_exact_mut` the goal `put_bits-requires`, that a chunk has eight elements, stays open.
    for (k, byte) in bytes.iter().enumerate() {
        put_bits(&words, *byte, &mut out[8 * k..]);
    }
}

// Four bits as a number, the first the most significant. In the word they stand a byte apart, as in memory, so that one read
// fetches them; the product brings them side by side.
fn pack_nibble(a: u8, b: u8, c: u8, d: u8) -> u8
    requires { (a < 2) × (b < 2) × (c < 2) × (d < 2) }
    ensures { result ≡ a * 8 + b * 4 + c * 2 + d }
{
    let word = u64::from(u32::from_le_bytes([a, b, c, d]));
    (word * 134480385 / 16777216 % 16) as u8
}

// Byte k of some bits, most significant first, one an element.
fn pack_byte(bits: &[u8], k: usize) -> u8
    requires { (k < 65536) × (8 * k + 8 ≤ length bits.now) × ((j : ℕ) → j < 8 → get_or bits.now (8 * k + j) 0 < 2) }
    ensures { result ≡ byte_of (λ i. get_or bits.now i 0) k }
{
    let i = 8 * k;
    let high = pack_nibble(bits[i], bits[i + 1], bits[i + 2], bits[i + 3]);
    let low = pack_nibble(bits[i + 4], bits[i + 5], bits[i + 6], bits[i + 7]);
    high * 16 + low
}

// The first `count` bytes of some bits, one an element, at the start of `out`.
pub fn pack(bits: &[u8], count: usize, out: &mut [u8])
    requires count_bound { (count < 65536) × (8 * count ≤ length bits.now) × (count ≤ length out.old) }
    requires by_index { (i : ℕ) → i < 8 * count → get_or bits.now i 0 < 2 }
    ensures { out.new ≡ written count (byte_of (λ i. get_or bits.now i 0)) out.old }
{
    // By index: with a zip of `iter_mut` and `chunks_exact` the goal `returns` stays open.
    for k in 0..count {
        out[k] = pack_byte(bits, k);
    }
}

// How many bits of two bytes differ.
fn differing(x: u8, y: u8) -> u16
    ensures { result ≡ count 8 (λ j. not (eqb (bit_at (7 - j) x) (bit_at (7 - j) y))) }
{
    (x ^ y).count_ones() as u16
}

// How many bits of two lists of as many bytes differ. Eight times 8,191 fits in a u16, and a narrow count is faster.
pub fn disagreements(a: &[u8], b: &[u8]) -> usize
    requires { (length a.now ≡ length b.now) × (length a.now < 8192) }
    ensures { result ≡ count (8 * length a.now) (λ i. not (eqb (bit_of a.now i) (bit_of b.now i))) }
{
    let mut n: u16 = 0;
    for (x, y) in a.iter().zip(b) {
        n += differing(*x, *y);
    }
    usize::from(n)
}
