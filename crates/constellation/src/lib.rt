// Constellation points (Q/GDW 11612.41-2016, Tables 15, 16 and 18): a carrier's bits to a point of two f64 coordinates.
//
// Public entries, none with a `requires`: map, and map_into, the same over lent memory. The rest is internal. A modulation is a number and
// no enum: `factor_of`, `carrier_bits` and `mapping` of specs/ take every number, and the entries answer 3 to each that is no modulation.
#![tactic(auto)]

ghost use Rattle.std.specs.Prelude.{◌≡◌, [], ◌∷◌, ℕ, ◌<◌, length, get_or};
ghost use Rattle.std.specs.Float.{binary64};
ghost use Rattle.std.specs.Float.Ieee.{of_int};
ghost use Rattle.refusal.specs.Report.{answer};
ghost use Rattle.card.specs.Modes.{carrier_bits};
ghost use Rattle.constellation.specs.Factors.{factor_of};
ghost use Rattle.constellation.specs.Mapping.{level2_of, level4_of, point_of, mapping};
ghost use Rattle.constellation.specs.Entries.{map_outcome};

use refusal::Refusal;

// m of the factors m / 2^53 of QPSK and m / 2^54 of 16QAM: the whole numbers nearest to 2^53/√2 and 2^54/√10.
const QPSK_NUMERATOR: u64 = 6369051672525773;

const QAM_NUMERATOR: u64 = 5696652996790543;

const QPSK_FACTOR: f64 = QPSK_NUMERATOR as f64 / 9007199254740992.0;

pub const QAM_FACTOR: f64 = QAM_NUMERATOR as f64 / 18014398509481984.0;

// A point: its I and Q coordinates.
#[derive(Clone, Copy)]
pub struct Point {
    pub i: f64,
    pub q: f64,
}

// The two items of a 16QAM axis. A label is such a pair, and so is what `slicing` makes of a coordinate.
#[derive(Clone, Copy)]
pub struct Pair {
    pub first: u8,
    pub second: u8,
}

// The factor f of a modulation.
pub fn factor_of(modulation: u8) -> f64
    ensures { result ≡ factor_of modulation }
{
    match modulation {
        0 => 1.0,
        1 => QPSK_FACTOR,
        _ => QAM_FACTOR,
    }
}

// The level of one bit.
fn level2(bit: u8) -> f64
    requires { bit < 2 }
    ensures { result ≡ of_int binary64 (level2_of bit) }
{
    if bit == 0 { -1.0 } else { 1.0 }
}

// The level of two bits: with the second bit written first, 01, 00, 10, 11 are -3, -1, 1, 3.
fn level4(first: u8, second: u8) -> f64
    requires first_bound { first < 2 }
    requires second_bound { second < 2 }
    ensures { result ≡ of_int binary64 (level4_of first second) }
{
    if second == 0 {
        if first == 0 { -1.0 } else { -3.0 }
    } else {
        if first == 0 { 1.0 } else { 3.0 }
    }
}

// The point of a carrier's bits, which are below 2 by a clause, since they are lent: each coordinate is one product. Each modulation returns
// its point: arms of a `match` would have the same lines, a level deeper.
fn point_of(modulation: u8, bits: &[u8]) -> Point
    requires { (modulation < 3) × (length bits.now ≡ carrier_bits modulation) × ((k : ℕ) → k < length bits.now → get_or bits.now k 0 < 2) }
    ensures { result ≡ point_of modulation (λ k. get_or bits.now k 0) }
{
    let f = factor_of(modulation);
    if modulation == 0 {
        let i = level2(bits[0]) * f;
        let q = 0.0 * f;
        return Point { i, q };
    }
    if modulation == 1 {
        let i = level2(bits[0]) * f;
        let q = level2(bits[1]) * f;
        return Point { i, q };
    }
    let i = level4(bits[0], bits[1]) * f;
    let q = level4(bits[2], bits[3]) * f;
    Point { i, q }
}

// Public entry: the point of a carrier's bits, of which BPSK uses the first and QPSK the first two.
pub fn map(modulation: u8, d0: u8, d1: u8, d2: u8, d3: u8) -> Result<Point, Refusal>
    ensures { answer result ≡ mapping modulation (d0 ∷ d1 ∷ d2 ∷ d3 ∷ []) }
{
    if 2 < modulation {
        return Err(Refusal::Mode);
    }
    let n = card::carrier_bits(modulation as usize);
    let all = [d0, d1, d2, d3];
    if let Some(bad) = bits::first_above(&all[..n], 1) {
        return Err(Refusal::Item(bad));
    }
    Ok(point_of(modulation, &all[..n]))
}

// Public entry: map over lent memory. The coordinates I and Q go to the start of `point`.
pub fn map_into(modulation: u64, bits: &[u8], point: &mut [f64]) -> Result<usize, Refusal>
    ensures answer { answer result ≡ (map_outcome modulation bits.now point.old).report }
    ensures point { point.new ≡ (map_outcome modulation bits.now point.old).out }
{
    if 2 < modulation {
        return Err(Refusal::Mode);
    }
    let n = card::carrier_bits(modulation as usize);
    if bits.len() != n {
        return Err(Refusal::Length(bits.len()));
    }
    if point.len() < 2 {
        return Err(Refusal::Room(2));
    }
    if let Some(illegal) = bits::first_above(bits, 1) {
        return Err(Refusal::Item(illegal));
    }
    let p = point_of(modulation as u8, bits);
    point[0] = p.i;
    point[1] = p.q;
    Ok(2)
}
