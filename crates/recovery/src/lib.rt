// Recovery of one block: from its decided coded bits back to its bytes, or refusal 7 or 8. Frame control and payload blocks both come back
// this way.
//
// Internal: nothing here is a public entry. A function with a `requires` is called only where its caller has shown it.
#![tactic(auto)]

ghost use Rattle.std.specs.Prelude.{◌≡◌, not, ◌/◌, ◌<◌, ◌≤◌, eqb, length, get_or};
ghost use Rattle.bits.specs.Bits.{bit_of, byte_of};
ghost use Rattle.bits.specs.Lists.{written, first_above};
ghost use Rattle.bits.specs.Sums.{count};
ghost use Rattle.refusal.specs.Report.{answer};
ghost use Rattle.card.specs.Modes.{block_bytes};
ghost use Rattle.turbo.specs.Puncture.{kept_count};
ghost use Rattle.turbo.specs.Parity.{kept_bit};
ghost use Rattle.interleaver_shape.specs.Shapes.{coded_bits};
ghost use Rattle.recovery.specs.Recovery.{data_bit, parity_bit, recovered};

use coding::Coding;
use refusal::Refusal;
use turbo::Encoder;

// The bytes of the data bits and those of the kept parity bits of a block's coded bits, all of them decided, at the start of `block` and of
// `parity`, by way of the rows of its source bits.
fn take_apart(coding: Coding, decided: &[u8], rows: &mut [u8], block: &mut [u8], parity: &mut [u8])
    requires decided { (length decided.now ≡ coded_bits coding.kind coding.rate) × (length decided.now ≤ first_above 1 decided.now) }
    requires rate_in_bounds { (coded_bits coding.kind coding.rate ≤ length rows.old) × (block_bytes coding.kind ≤ length block.old)
        × (kept_count coding.kind coding.rate / 8 ≤ length parity.old) }
    ensures block { block.new ≡ written (block_bytes coding.kind)
        (byte_of (data_bit coding.kind coding.rate (λ i. get_or decided.now i 0))) block.old }
    ensures parity { parity.new ≡ written (kept_count coding.kind coding.rate / 8)
        (byte_of (parity_bit coding.kind coding.rate (λ i. get_or decided.now i 0))) parity.old }
{
    let coded = decided.len();
    let height = interleaver_shape::data_rows(coding.kind);
    let data = 4 * height;
    interleaver::deinterleave(coding, decided, rows);
    columns::from_rows(height, &rows[..data], block);
    columns::from_rows(
        interleaver_shape::parity_rows(coding),
        &rows[data..coded],
        parity,
    );
}

// How many kept parity bits of some bytes differ from those in `parity`. They are computed again at the start of `again`.
fn parity_errors(coding: Coding, bytes: &[u8], parity: &[u8], again: &mut [u8]) -> usize
    requires { (length bytes.now ≡ block_bytes coding.kind) × (length parity.now ≡ kept_count coding.kind coding.rate / 8)
        × (kept_count coding.kind coding.rate / 8 ≤ length again.old) }
    ensures { result ≡ count (kept_count coding.kind coding.rate)
        (λ i. not (eqb (kept_bit coding.kind coding.rate coding.taps (bit_of bytes.now) i) (bit_of parity.now i))) }
{
    Encoder::from(coding).encode(bytes, again);
    let kept = parity.len();
    bits::disagreements(&again[..kept], parity)
}

// The bytes of a block from its coded bits, all of them decided, at the start of `out`, or refusal 8, by way of the rows of its source
// bits, of which there are at most N. Nothing is written to `out` before the check has passed. A function of its own in the library too, so
// that a short block takes little stack. Memory is fixed, with no heap: each array has the most that it holds.
#[inline(never)]
fn recover_by<const N: usize>(
    coding: Coding,
    decided: &[u8],
    out: &mut [u8],
) -> Result<usize, Refusal>
    requires decided { (length decided.now ≡ coded_bits coding.kind coding.rate) × (length decided.now ≤ first_above 1 decided.now) }
    requires rate_in_bounds { (coded_bits coding.kind coding.rate ≤ N) × (N < 65536) × (block_bytes coding.kind ≤ length out.old) }
    ensures answer { answer result ≡ (recovered coding.kind coding.rate coding.taps (λ i. get_or decided.now i 0) out.old).report }
    ensures bytes { out.new ≡ (recovered coding.kind coding.rate coding.taps (λ i. get_or decided.now i 0) out.old).out }
{
    let size = coding.block_bytes();
    let kept = Encoder::from(coding).kept_count() / 8;
    let mut rows = [0u8; N];
    let mut block = [0u8; 520];
    let mut parity = [0u8; 520];
    let mut again = [0u8; 520];
    take_apart(coding, decided, &mut rows, &mut block, &mut parity);
    let errors = parity_errors(coding, &block[..size], &parity[..kept], &mut again);
    if 0 < errors {
        return Err(Refusal::Parity(errors));
    }
    bits::put(&block[..size], &mut out[..size]);
    Ok(size)
}

// The bytes of a block from its decided coded bits, at the start of `out`, or refusal 7 or 8. Nothing is written before both checks
// have passed. Short blocks have shorter arrays, since a longer one takes longer to clear. `fec::encode` has the same three sizes: one match
// for both would take a function for any N, which no closure is. Inlined, the search of frame control's 256 bits goes many at a time.
#[inline(always)]
pub fn recover(coding: Coding, decided: &[u8], out: &mut [u8]) -> Result<usize, Refusal>
    requires { (length decided.now ≡ coded_bits coding.kind coding.rate) × (block_bytes coding.kind ≤ length out.old) }
    ensures answer { answer result ≡ (recovered coding.kind coding.rate coding.taps (λ i. get_or decided.now i 0) out.old).report }
    ensures bytes { out.new ≡ (recovered coding.kind coding.rate coding.taps (λ i. get_or decided.now i 0) out.old).out }
{
    if let Some(undecided) = bits::first_above(decided, 1) {
        return Err(Refusal::Majority(undecided));
    }
    match coding.kind {
        0 => recover_by::<256>(coding, decided, out),
        1 | 2 => recover_by::<2176>(coding, decided, out),
        _ => recover_by::<8320>(coding, decided, out),
    }
}
