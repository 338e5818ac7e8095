// Forward error correction of one block: from its bytes to its coded bits. Frame control and payload blocks both go this way; crate
// `recovery` is the way back.
//
// Internal: nothing here is a public entry. A function with a `requires` is called only where its caller has shown it.
#![tactic(auto)]

ghost use Rattle.std.specs.Prelude.{◌≡◌, ◌/◌, ◌<◌, ◌≤◌, length};
ghost use Rattle.bits.specs.Bits.{bit_of};
ghost use Rattle.bits.specs.Lists.{written};
ghost use Rattle.card.specs.Modes.{block_bytes};
ghost use Rattle.turbo.specs.Puncture.{kept_count};
ghost use Rattle.interleaver_shape.specs.Shapes.{coded_bits};
ghost use Rattle.interleaver.specs.Loops.RowOrder.{row_source};
ghost use Rattle.fec.specs.Coding.{source_bit, coded_bit};

use coding::Coding;
use turbo::Encoder;

// The rows of a block's source bits, at the start of `rows`: those of its data bits, and then those of its kept parity bits, which are made
// at the start of `parity`.
fn source_rows(coding: Coding, bytes: &[u8], parity: &mut [u8], rows: &mut [u8])
    requires whole { length bytes.now ≡ block_bytes coding.kind }
    requires rate_in_bounds { (kept_count coding.kind coding.rate / 8 ≤ length parity.old) × (coded_bits coding.kind coding.rate ≤ length rows.old) }
    ensures { rows.new ≡ written (coded_bits coding.kind coding.rate)
        (λ j. source_bit coding.kind coding.rate coding.taps (bit_of bytes.now) (row_source coding.kind coding.rate j)) rows.old }
{
    let encoder = Encoder::from(coding);
    let kept = encoder.kept_count() / 8;
    let height = interleaver_shape::data_rows(coding.kind);
    let data = 4 * height;
    encoder.encode(bytes, parity);
    columns::to_rows(height, bytes, rows);
    columns::to_rows(
        interleaver_shape::parity_rows(coding),
        &parity[..kept],
        &mut rows[data..],
    );
}

// The coded bits of a block, at the start of `out`, by way of the rows of its source bits, of which there are at most N. A function of
// its own in the library too, so that a short block takes little stack. Memory is fixed, with no heap: each array has the most that it
// holds.
#[inline(never)]
fn encode_by<const N: usize>(coding: Coding, bytes: &[u8], out: &mut [u8])
    requires whole { length bytes.now ≡ block_bytes coding.kind }
    requires rate_in_bounds { (coded_bits coding.kind coding.rate ≤ N) × (N < 65536) × (coded_bits coding.kind coding.rate ≤ length out.old) }
    ensures { out.new ≡ written (coded_bits coding.kind coding.rate)
        (coded_bit coding.kind coding.rate coding.taps (bit_of bytes.now)) out.old }
{
    let mut parity = [0u8; 520];
    let mut rows = [0u8; N];
    source_rows(coding, bytes, &mut parity, &mut rows);
    let coded = interleaver_shape::coded_bits(coding);
    interleaver::interleave(coding, &rows[..coded], out);
}

// The coded bits of a block, at the start of `out`. Short blocks have shorter arrays, since a longer one takes longer to clear.
// `recovery::recover` has the same three sizes.
pub fn encode(coding: Coding, bytes: &[u8], out: &mut [u8])
    requires { (length bytes.now ≡ block_bytes coding.kind) × (coded_bits coding.kind coding.rate ≤ length out.old) }
    ensures { out.new ≡ written (coded_bits coding.kind coding.rate) (coded_bit coding.kind coding.rate coding.taps (bit_of bytes.now)) out.old }
{
    match coding.kind {
        0 => encode_by::<256>(coding, bytes, out),
        1 | 2 => encode_by::<2176>(coding, bytes, out),
        _ => encode_by::<8320>(coding, bytes, out),
    }
}
