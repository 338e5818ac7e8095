// Four columns of bits of some height, filled column by column: from bytes, most significant bit first, to rows of four elements, each
// 0 or 1, and back. Loops go over indices and not over chunks, since most of their indices are places on both sides.
//
// That a height is at most 130 is a clause and no type: it bounds the arithmetic alone, of a height in bytes in the functions by words and
// in bits in the others. `ServedHeight` says what a height is, and only the two public functions ask it. That elements are below 2 is a
// clause too: they are parts of lent slices, of which a type would be made anew at each part. The array of a short height has the most that
// such a height takes: memory is fixed, with no heap.
//
// Internal: nothing here is a public entry. A function with a `requires` is called only where its caller has shown it.
#![tactic(auto)]

ghost use Rattle.std.specs.Prelude.{◌≡◌, ℕ, ◌+◌, ◌-◌, ◌*◌, ◌/◌, ◌%◌, ◌<◌, ◌≤◌, length, get_or};
ghost use Rattle.bits.specs.Lists.{written};
ghost use Rattle.bits.specs.Bits.{bit_at, bit_of, pack, byte_of};
ghost use Rattle.bits.specs.Loops.Words.{word_byte};
ghost use Rattle.columns.specs.Columns.{rowed, unrowed};
ghost use Rattle.columns.specs.Loops.Heights.{ServedHeight};

// Row j of eight whose columns are the bytes of a word: one bit of each byte.
fn row(word: u32, j: usize) -> u32
    requires { j < 8 }
    ensures { (c : ℕ) → c < 4 → word_byte result c ≡ bit_at (7 - j) (word_byte word c) }
{
    (word >> (7 - j)) & 0x1010101
}

// The eight rows whose columns are the bytes of a word, at the start of `out`. By index, which is the bit of each byte too.
fn put_rows(word: u32, out: &mut [u8])
    requires { 32 ≤ length out.old }
    ensures { out.new ≡ written 32 (λ k. bit_at (7 - k / 4) (word_byte word (k % 4))) out.old }
{
    for j in 0..8 {
        bits::scatter(row(word, j), 4 * j, 1, out);
    }
}

// The rows of columns of `height` bytes, eight rows at a time.
fn rows_by_words(height: usize, bytes: &[u8], out: &mut [u8])
    requires { (length bytes.now ≡ 4 * height) × (height ≤ 130) × (32 * height ≤ length out.old) }
    ensures { out.new ≡ written (32 * height) (rowed (8 * height) (bit_of bytes.now)) out.old }
{
    for i in 0..height {
        put_rows(bits::gather(bytes, i, height), &mut out[32 * i..]);
    }
}

// The rows of columns of bits, one an element, row by row. There and back are two loops: one would take the strides of both sides, and say
// less of either.
fn put_elements(height: usize, bits: &[u8], out: &mut [u8])
    requires { (height ≤ 130) × (4 * height ≤ length bits.now) × (4 * height ≤ length out.old) }
    ensures { out.new ≡ written (4 * height) (rowed height (λ k. get_or bits.now k 0)) out.old }
{
    for r in 0..height {
        bits::scatter(bits::gather(bits, r, height), 4 * r, 1, out);
    }
}

// The rows of columns whose height is not in bytes. Such columns are short, and so is the array: a longer one takes longer to clear
// than the work takes.
fn rows_by_bits(height: usize, bytes: &[u8], out: &mut [u8])
    requires { (2 * length bytes.now ≡ height) × (height ≤ 130) × (4 * height ≤ length out.old) }
    ensures { out.new ≡ written (4 * height) (rowed height (bit_of bytes.now)) out.old }
{
    let mut all = [0u8; 520];
    bits::unpack(bytes, &mut all);
    put_elements(height, &all, out);
}

// The rows of four columns of `height` bits each, which some bytes fill column by column, at the start of `out`.
pub fn to_rows(height: usize, bytes: &[u8], out: &mut [u8])
    requires { ServedHeight height × (2 * length bytes.now ≡ height) × (4 * height ≤ length out.old) }
    ensures { out.new ≡ written (4 * height) (rowed height (bit_of bytes.now)) out.old }
{
    if height % 8 == 0 {
        rows_by_words(height / 8, bytes, out);
    } else {
        rows_by_bits(height, bytes, out);
    }
}

// The word whose bytes are the columns of eight rows, from `at` on. A rotation doubles it, which is faster here than a product. By index,
// since `gather` takes a place, in the rows or in a chunk of four alike.
fn take_rows(rows: &[u8], at: usize) -> u32
    requires { (at + 32 ≤ length rows.now) × ((j : ℕ) → j < 32 → get_or rows.now (at + j) 0 < 2) }
    ensures { (c : ℕ) → c < 4 → word_byte result c ≡ pack 8 (λ j. get_or rows.now (at + 4 * j + c) 0) }
{
    let mut word: u32 = 0;
    for j in 0..8 {
        word = word.rotate_left(1) + bits::gather(rows, at + 4 * j, 1);
    }
    word
}

// The columns of `height` bytes of some rows, eight rows at a time.
fn columns_by_words(height: usize, rows: &[u8], out: &mut [u8])
    requires height_bound { (height ≤ 130) × (length rows.now ≡ 32 * height) × (4 * height ≤ length out.old) }
    requires by_index { (j : ℕ) → j < 32 * height → get_or rows.now j 0 < 2 }
    ensures { out.new ≡ written (4 * height) (byte_of (unrowed (8 * height) (λ j. get_or rows.now j 0))) out.old }
{
    for i in 0..height {
        bits::scatter(take_rows(rows, 32 * i), i, height, out);
    }
}

// The columns of some rows, one bit an element, row by row.
fn take_elements(height: usize, rows: &[u8], out: &mut [u8])
    requires { (height ≤ 130) × (length rows.now ≡ 4 * height) × (4 * height ≤ length out.old) }
    ensures { out.new ≡ written (4 * height) (unrowed height (λ j. get_or rows.now j 0)) out.old }
{
    for r in 0..height {
        bits::scatter(bits::gather(rows, 4 * r, 1), r, height, out);
    }
}

// The bytes of columns whose height is not in bytes, by a short array too.
fn columns_by_bits(height: usize, rows: &[u8], out: &mut [u8])
    requires height_value { (2 * (height / 2) ≡ height) × (height ≤ 130) × (length rows.now ≡ 4 * height) × (height / 2 ≤ length out.old) }
    requires by_index { (j : ℕ) → j < 4 * height → get_or rows.now j 0 < 2 }
    ensures { out.new ≡ written (height / 2) (byte_of (unrowed height (λ j. get_or rows.now j 0))) out.old }
{
    let mut all = [0u8; 520];
    take_elements(height, rows, &mut all);
    bits::pack(&all, height / 2, out);
}

// The bytes that fill four columns of `height` bits each, column by column, from the columns' rows, at the start of `out`.
pub fn from_rows(height: usize, rows: &[u8], out: &mut [u8])
    requires served_height { ServedHeight height × (length rows.now ≡ 4 * height) × (height / 2 ≤ length out.old) }
    requires by_index { (j : ℕ) → j < 4 * height → get_or rows.now j 0 < 2 }
    ensures { out.new ≡ written (height / 2) (byte_of (unrowed height (λ j. get_or rows.now j 0))) out.old }
{
    if height % 8 == 0 {
        columns_by_words(height / 8, rows, out);
    } else {
        columns_by_bits(height, rows, out);
    }
}
