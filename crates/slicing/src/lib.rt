// Received carriers back to items (paper 01, "Points"; paper 02, T-02), by the factors and labels of `constellation`: 0, 1, or 2 where
// a coordinate is lost: an item like the others, as the papers have it, and no Option. The threshold and the erasure width stand here.
//
// Public entries, none with a `requires`: slice, and slice_into, the same over lent memory. The rest is internal. A modulation is a number
// and no enum, as in `constellation`: `slicing` of specs/ takes every number, and the entries answer 3 to each that is no modulation.
#![tactic(auto)]

ghost use Rattle.std.specs.Prelude.{◌≡◌, false, cond, ◌&&◌, ◌++◌, ◌≤◌, length, drop};
ghost use Rattle.std.specs.Float.{inf};
ghost use Rattle.std.specs.Float.Ieee.{lt, le};
ghost use Rattle.refusal.specs.Report.{answer};
ghost use Rattle.constellation.specs.Mapping.{pair};
ghost use Rattle.slicing.specs.Slicing.{erasure_width, lower, upper, axis2_of, axis4_of, items_of, items_in, sliced, slicing};
ghost use Rattle.slicing.specs.Entries.{received_of, slice_outcome};

use constellation::{Pair, QAM_FACTOR};
use refusal::Refusal;

// The erasure width, as a part of the factor: sizes up to it are lost.
const ERASURE_FRACTION: f64 = 0.125;

// About 2f, 16QAM loses the sizes from LOWER to UPPER, both included. 2f and the width are exact, so each end is rounded once.
const QAM_ERASURE: f64 = QAM_FACTOR * ERASURE_FRACTION;

const LOWER: f64 = 2.0 * QAM_FACTOR - QAM_ERASURE;

const UPPER: f64 = 2.0 * QAM_FACTOR + QAM_ERASURE;

// A received carrier, by paper 01's words: heard, with its I and Q coordinates, or lost. An enum of its own and no Option (D23): 01 names
// both cases, and the definitions and laws of slicing match on them.
#[derive(Clone, Copy)]
pub enum Received {
    Heard(f64, f64),
    Lost,
}

// The items of a carrier of BPSK, QPSK and 16QAM: 0, 1, or 2 where lost.
#[derive(Clone, Copy)]
pub enum Sliced {
    One(u8),
    Two(u8, u8),
    Four(u8, u8, u8, u8),
}

// The erasure width of a modulation.
fn erasure_width(modulation: u8) -> f64
    ensures { result ≡ erasure_width modulation }
{
    constellation::factor_of(modulation) * ERASURE_FRACTION
}

// Above the width, and finite.
fn above(width: f64, x: f64) -> bool
    ensures { result ≡ lt width x && lt x (inf false) }
{
    width < x && x < f64::INFINITY
}

// The item of an axis of BPSK or QPSK.
fn axis2(modulation: u8, x: f64) -> u8
    ensures { result ≡ axis2_of modulation x }
{
    let width = erasure_width(modulation);
    if above(width, x) {
        return 1;
    }
    if above(width, -x) {
        return 0;
    }
    2
}

// The items of a 16QAM coordinate by its size. The second one is given by its sign, and about 2f both are 2.
fn sized4(size: f64, second: u8) -> Pair
    ensures { result ≡ cond (lt size lower) (pair 0 second) (cond (le size upper) (pair 2 2) (pair 1 second)) }
{
    if size < LOWER {
        return Pair { first: 0, second };
    }
    if size <= UPPER {
        return Pair {
            first: 2,
            second: 2,
        };
    }
    Pair { first: 1, second }
}

// The two items of an axis of 16QAM.
fn axis4(x: f64) -> Pair
    ensures { result ≡ axis4_of x }
{
    if above(QAM_ERASURE, x) {
        return sized4(x, 1);
    }
    if above(QAM_ERASURE, -x) {
        return sized4(-x, 0);
    }
    Pair {
        first: 2,
        second: 2,
    }
}

// The items of a received carrier of a modulation that there is.
fn items_of(modulation: u8, received: Received) -> Sliced
    requires { modulation ≤ 2 }
    ensures { items_in result ≡ items_of modulation received }
{
    match received {
        Received::Lost => match modulation {
            0 => Sliced::One(2),
            1 => Sliced::Two(2, 2),
            _ => Sliced::Four(2, 2, 2, 2),
        },
        Received::Heard(i, q) => match modulation {
            0 => Sliced::One(axis2(modulation, i)),
            1 => Sliced::Two(axis2(modulation, i), axis2(modulation, q)),
            _ => {
                let a = axis4(i);
                let b = axis4(q);
                Sliced::Four(a.first, a.second, b.first, b.second)
            }
        },
    }
}

// Public entry: the items of a received carrier.
pub fn slice(modulation: u8, received: Received) -> Result<Sliced, Refusal>
    ensures { sliced result ≡ slicing modulation received }
{
    if 2 < modulation {
        return Err(Refusal::Mode);
    }
    Ok(items_of(modulation, received))
}

// A received carrier by a number that is 0 where it is lost: the C interface has no enum with coordinates (D23).
fn received_of(heard: u64, i: f64, q: f64) -> Received
    ensures { result ≡ received_of heard i q }
{
    if heard == 0 {
        Received::Lost
    } else {
        Received::Heard(i, q)
    }
}

// The items of a carrier at the start of `items`.
fn put_items(s: Sliced, items: &mut [u8])
    requires { length (items_in s) ≤ length items.old }
    ensures { items.new ≡ items_in s ++ drop (length (items_in s)) items.old }
{
    match s {
        Sliced::One(a) => bits::put(&[a], items),
        Sliced::Two(a, b) => bits::put(&[a, b], items),
        Sliced::Four(a, b, c, d) => bits::put(&[a, b, c, d], items),
    }
}

// Public entry: slice over lent memory. `heard` is 0 for a lost carrier, and any other number for one heard at i and q:
// C passes the three, and no `Received` (D23).
pub fn slice_into(
    modulation: u64,
    heard: u64,
    i: f64,
    q: f64,
    items: &mut [u8],
) -> Result<usize, Refusal>
    ensures answer { answer result ≡ (slice_outcome modulation (received_of heard i q) items.old).report }
    ensures items { items.new ≡ (slice_outcome modulation (received_of heard i q) items.old).out }
{
    if 2 < modulation {
        return Err(Refusal::Mode);
    }
    let n = card::carrier_bits(modulation as usize);
    if items.len() < n {
        return Err(Refusal::Room(n));
    }
    put_items(items_of(modulation as u8, received_of(heard, i, q)), items);
    Ok(n)
}
