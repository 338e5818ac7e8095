// The address interleavers of a copied payload (5.1.5.5.5 of source 000): their addresses, by a walk down the columns.
//
// Internal: nothing here is a public entry, and callers show what a function requires.
#![tactic(auto)]

ghost use Rattle.std.specs.Prelude.{◌≡◌, ◌+◌, ◌*◌, ◌%◌, ◌<◌, ◌≤◌, length, slice_index, EachIndex};
ghost use Rattle.bits.specs.Lists.{written};
ghost use Rattle.address_interleaver.specs.Addresses.{circshift, columns, out_addr};
ghost use Rattle.address_interleaver.specs.Loops.Table.{next_in_column, next_column, address_of};

// What comes after x in a walk down the columns, and its column.
fn next(n: usize, m: usize, x: usize, column: usize) -> (usize, usize)
    requires { (n < 65536) × (m < 65536) × (x < n) × (column ≤ x) }
    ensures { (result.0 ≡ next_in_column n m x column) × (result.1 ≡ next_column n m x column) }
{
    if x + m < n {
        (x + m, column)
    } else {
        (column + 1, column + 1)
    }
}

// The place after p of n, and after the last one the first.
pub fn next_place(n: usize, p: usize) -> usize
    requires { (p < n) × (n < 4294967296) }
    ensures { (result ≡ (p + 1) % n) × (result < n) }
{
    if p + 1 < n { p + 1 } else { 0 }
}

// The numbers below the length of `out`, written by rows of m, read by columns and moved up by `start` places, each with `base` added. The
// place goes around, and place, number and column each follow from the one before, so that no turn takes a division.
fn walk(m: usize, start: usize, base: usize, out: &mut [u16])
    requires { (start < length out.old) × (0 < m) × (m < 65536) × (base + length out.old < 65536) }
    ensures { EachIndex out.new (λ p. slice_index out.new p ≡ base + columns (length out.old) m (circshift (length out.old) start p)) }
{
    let n = out.len();
    let mut x = 0;
    let mut column = 0;
    let mut p = start;
    for _ in 0..n {
        out[p] = (base + x) as u16;
        (x, column) = next(n, m, x, column);
        p = next_place(n, p);
    }
}

// The addresses of interleaver k of as many carriers as `out` is long, each with `base` added.
fn fill_interleaver(step: usize, k: usize, base: usize, out: &mut [u16])
    requires { (0 < length out.old) × (step ≤ 2) × (k < 16384) × (base + length out.old < 65536) }
    ensures { EachIndex out.new (λ p. slice_index out.new p ≡ base + out_addr (length out.old) step k p) }
{
    let n = out.len();
    if step == 0 {
        walk(1, k % n, base, out);
    } else {
        walk((k + 1) * step, 2 * k * step % n, base, out);
    }
}

// The addresses of `count` interleavers, side by side. The layout that has these numbers is of a crate above.
pub fn fill_table(interleavers: usize, span: usize, step: usize, count: usize, out: &mut [u16])
    requires { (0 < interleavers) × (0 < span) × (step ≤ 2) × (count * span ≤ 410) × (interleavers * span ≤ 410) × (count * span ≤ length out.old) }
    ensures { out.new ≡ written (count * span) (address_of interleavers span step) out.old }
{
    // By index: with `chunks_exact_mut(span).enumerate()`, `returns` stays open.
    for k in 0..count {
        let at = k * span;
        let j = k % interleavers;
        fill_interleaver(step, k, j * span, &mut out[at..at + span]);
    }
}
