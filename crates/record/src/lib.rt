// A record of the file that `vectors` runs: what its call must give, and the comparison of what the call gives with that.
//
// Internal: nothing here is a public entry.
#![tactic(auto)]

ghost use Rattle.std.specs.Prelude.{◌≡◌, Bool, true, false, ◌&&◌, List, [], ℕ, ◌+◌, ◌*◌, ◌/◌, ◌<◌, ◌≤◌, eqb, length};
ghost use Rattle.std.specs.Float.Ieee.{nan_bits, of_bits};
ghost use Rattle.std.specs.Float.{binary64};
ghost use native.Mathlib.Omega.{arith};
ghost use borrow.Author.Tests.{le-ltb, lt-ltb};
ghost use Rattle.bits.specs.Ranges.{all_below};
ghost use Rattle.refusal.specs.Report.{answer};
ghost use Rattle.record.specs.Expected.{byte_at, most, word_at, has_bits, same_byte, same_word, same_float, holds, compared as compared_with};

use refusal::Refusal;

// What each byte of an output is before a call, and eight of them.
pub const UNTOUCHED: u8 = 0xA5;

pub const UNTOUCHED_WORD: u64 = 0xA5A5A5A5A5A5A5A5;

// The most bytes of an input or an output: the longest list of items, and room to spare (D27).
pub const MOST_BYTES: usize = 131072;

// The most words or floats of an output: a card has ten fields and a point two coordinates, and no answer changes with more room.
pub const MOST_WORDS: usize = 1000;

// A record without its bytes: the call, the room of the output, and the expected number and value.
#[derive(Clone, Copy)]
pub struct Record {
    pub call: u64,
    pub room: u64,
    pub number: u64,
    pub value: u64,
}

// What a call gave: the number, what comes with it, and whether these and the output are as a record expects. That is a fact beside the
// numbers, which are printed whether they agree or not.
#[derive(Clone, Copy)]
pub struct Given {
    pub number: u64,
    pub value: u64,
    pub agrees: bool,
}

// Byte i of some bytes, and of an untouched output beyond them: no Option, as the definition has it.
pub fn byte_at(s: &[u8], i: usize) -> u8
    ensures { result ≡ byte_at s.now i }
{
    if i < s.len() { s[i] } else { UNTOUCHED }
}

// The word of eight bytes from `at` on, and of an untouched output where there are fewer, as the definition has it.
pub fn word_at(s: &[u8], at: usize) -> u64
    ensures { result ≡ word_at s.now at }
{
    if s.len() < 8 || s.len() - 8 < at {
        return UNTOUCHED_WORD;
    }
    bits::number_at(s, at, 8)
}

// The sign's place in the bits of an f64, and the lowest of the exponent's.
const SIGN: u64 = 1 << 63;

const EXPONENT: u64 = 1 << 52;

// Whether some bits are a NaN's: the exponent is the largest, 2047, and the fraction is not 0. `f64::from_bits` takes no such bits, so
// there is no float of them to ask.
fn is_nan(bits: u64) -> bool
    ensures { result ≡ nan_bits binary64 bits }
{
    bits % SIGN / EXPONENT == 2047 && bits % EXPONENT != 0
}

// The float of some bits. All NaNs are one.
pub fn float_of(bits: u64) -> f64
    ensures { result ≡ of_bits binary64 bits }
{
    if is_nan(bits) {
        f64::NAN
    } else {
        f64::from_bits(bits)
    }
}

// Whether a float is no NaN, and has some bits. By bits, since `==` takes 0 and -0 as one.
fn has_bits(x: f64, bits: u64) -> bool
    ensures { result ≡ has_bits x bits }
{
    !x.is_nan() && x.to_bits() == bits
}

// What an output is made of: bytes, words, or floats, which are expected by their bits.
pub trait Element: Copy {
    ghost untouched: { Self };

    ghost count: { ℕ → ℕ };

    ghost same: { List Self → List ℕ → ℕ → Bool };

    // What each element of an output is before a call.
    fn untouched() -> Self
        ensures { result ≡ untouched };

    // How many elements some expected bytes are.
    fn count(expected: &[u8]) -> usize
        ensures { result ≡ count (length expected.now) };

    // Whether element i of an output is as expected.
    fn same(out: &[Self], expected: &[u8], i: usize) -> bool
        requires { i < length out.now }
        ensures { result ≡ same out.now expected.now i };

    // Bytes that expect the same as `expected` of the elements beyond it: `expected` itself, or none, where an impl can show it of none.
    fn beyond(expected: &[u8]) -> &[u8]
        ensures { (out : List Self) → (i : ℕ) → count (length expected.now) ≤ i → same out expected.now i ≡ same out result.now i }
    {
        expected
    }
}

impl Element for u8 {
    ghost untouched = { 165 };

    ghost count = { λ n. n };

    ghost same = { same_byte };

    fn untouched() -> u8 {
        UNTOUCHED
    }

    fn count(expected: &[u8]) -> usize {
        expected.len()
    }

    fn same(out: &[u8], expected: &[u8], i: usize) -> bool {
        out[i] == byte_at(expected, i)
    }

    fn beyond(_: &[u8]) -> &[u8]
        ensures { result.now ≡ [] }
    {
        &[]
    }
}

impl Element for u64 {
    ghost untouched = { 11936128518282651045 };

    ghost count = { λ n. n / 8 };

    ghost same = { same_word };

    fn untouched() -> u64 {
        UNTOUCHED_WORD
    }

    fn count(expected: &[u8]) -> usize {
        expected.len() / 8
    }

    fn same(out: &[u64], expected: &[u8], i: usize) -> bool {
        out[i] == word_at(expected, 8 * i)
    }

    fn beyond(_: &[u8]) -> &[u8]
        ensures { result.now ≡ [] }
    {
        &[]
    }
}

impl Element for f64 {
    ghost untouched = { of_bits binary64 11936128518282651045 };

    ghost count = { λ n. n / 8 };

    ghost same = { same_float };

    fn untouched() -> f64 {
        float_of(UNTOUCHED_WORD)
    }

    fn count(expected: &[u8]) -> usize {
        expected.len() / 8
    }

    fn same(out: &[f64], expected: &[u8], i: usize) -> bool {
        has_bits(out[i], word_at(expected, 8 * i))
    }

    fn beyond(_: &[u8]) -> &[u8]
        ensures { result.now ≡ [] }
    {
        &[]
    }
}

// An element that, beyond what is expected, is as expected where nothing is: untouched. A law alone, in a trait of its own, since not every
// `Element` has it.
pub trait UntouchedBeyond: Element {
    ghost beyond: { (out : List Self) → (expected : List ℕ) → (i : ℕ) → Self.count (length expected) ≤ i → Self.same out expected i ≡ Self.same out [] i };
}

impl UntouchedBeyond for u8 {
    ghost beyond = { λ out expected i h. Prim.simp (le-ltb i (length expected) h, le-ltb i 0 (Prim.omega arith)) };
}

impl UntouchedBeyond for u64 {
    ghost beyond = { λ out expected i h. Prim.simp (lt-ltb (length expected) (8 * i + 8) (Prim.omega (arith, h)), lt-ltb 0 (8 * i + 8) (Prim.omega arith)) };
}

impl UntouchedBeyond for f64 {
    ghost beyond = { λ out expected i h. Prim.simp (lt-ltb (length expected) (8 * i + 8) (Prim.omega (arith, h)), lt-ltb 0 (8 * i + 8) (Prim.omega arith)) };
}

// An untouched output.
#[tactic(auto, unfolding(crate::specs::Expected::most))]
pub fn untouched<T: Element, const N: usize>() -> [T; N]
    ensures { (result ≡ most N T.untouched) × (N ≡ length result) }
{
    [T::untouched(); N]
}

// Whether the elements of an output from one on, up to another, are as expected. By index, since an expected word has eight bytes:
// element i is compared with the bytes that begin at `8 * i`, as the ghost `same` of `Element` has it. Inlined, as its callers are, so that
// where both lie is known, and bytes go many at a time.
#[inline(always)]
fn same_between<T: Element>(from: usize, to: usize, out: &[T], expected: &[u8]) -> bool
    requires { (from ≤ to) × (to ≤ length out.now) }
    ensures alike { result ≡ true → (i : ℕ) → from ≤ i → i < to → T.same out.now expected.now i ≡ true }
    ensures other { result ≡ false → (i : ℕ) × (from ≤ i) × (i < to) × (T.same out.now expected.now i ≡ false) }
{
    for i in from..to {
        if !T::same(out, expected, i) {
            return false;
        }
    }
    true
}

// How many elements beyond what is expected are looked at before a difference counts.
const BLOCK: usize = 64;

// Whether the elements of a block, from one on, are as expected. It goes to its end, whatever it finds, so that many go at a time.
fn block_same<T: Element>(from: usize, out: &[T], expected: &[u8]) -> bool
    requires { from + 64 ≤ length out.now }
    ensures alike { result ≡ true → (i : ℕ) → from ≤ i → i < from + 64 → T.same out.now expected.now i ≡ true }
    ensures other { result ≡ false → (i : ℕ) × (from ≤ i) × (i < from + 64) × (T.same out.now expected.now i ≡ false) }
{
    let mut alike = true;
    for i in from..from + BLOCK {
        alike &= T::same(out, expected, i);
    }
    alike
}

// Whether the elements of an output from one on are as expected, block by block.
fn same_from<T: Element>(from: usize, out: &[T], expected: &[u8]) -> bool
    requires { from ≤ length out.now }
    ensures alike { result ≡ true → (i : ℕ) → from ≤ i → i < length out.now → T.same out.now expected.now i ≡ true }
    ensures other { result ≡ false → (i : ℕ) × (from ≤ i) × (i < length out.now) × (T.same out.now expected.now i ≡ false) }
{
    let blocks = (out.len() - from) / BLOCK;
    for b in 0..blocks {
        if !block_same(from + b * BLOCK, out, expected) {
            return false;
        }
    }
    same_between(from + blocks * BLOCK, out.len(), out, expected)
}

// Whether each element of an output is as expected. Those beyond what is expected go by themselves, by the bytes of `beyond`: bytes, words and
// floats are compared with one value there, which goes many at a time.
#[inline(always)]
fn all_same<T: Element>(out: &[T], expected: &[u8]) -> bool
    ensures { result ≡ all_below (length out.now) (T.same out.now expected.now) }
{
    let count = T::count(expected);
    if out.len() <= count {
        return same_between(0, out.len(), out, expected);
    }
    same_between(0, count, out, expected) && same_from(count, out, T::beyond(expected))
}

// Whether an output has what is expected at its start and is untouched beyond.
#[inline(always)]
pub fn holds<T: Element>(out: &[T], expected: &[u8]) -> bool
    ensures { result ≡ holds (length out.now) (T.count (length expected.now)) (T.same out.now expected.now) }
{
    all_same(out, expected) && T::count(expected) <= out.len()
}

// Whether three numbers are the expected number and value, and 0.
fn are_expected(number: u64, value: u64, second: u64, r: Record) -> bool
    ensures { result ≡ eqb number r.number && eqb value r.value && eqb second 0 }
{
    number == r.number && value == r.value && second == 0
}

// What a call gave, by its answer and whether its output is as expected.
#[tactic(auto, unfolding(crate::specs::Expected::compared))]
pub fn compared(a: Result<usize, Refusal>, r: Record, held: bool) -> Given
    ensures { result ≡ compared_with r (answer a) held }
{
    let mut values = [UNTOUCHED_WORD; 2];
    let number = refusal::report(a, &mut values) as u64;
    let [value, second] = values;
    Given {
        number,
        value,
        agrees: are_expected(number, value, second, r) && held,
    }
}

#[cfg(test)]
mod tests;
