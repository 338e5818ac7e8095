// Prints every constellation point, what each pair of special coordinates slices to, and the refusals of mapping and slicing.
//
// `map M D I Q`: the modulation, its bits from d0 on, and the bits of the two f64 coordinates. `slice M A B ITEMS`: the coordinates
// `value(A)` and `value(B)`, and the items; `lost` stands in place of A and B for a lost carrier.
#![tactic(auto)]

ghost use Rattle.std.specs.Prelude.{◌<◌};

use refusal::Refusal;
use slicing::{Received, Sliced};
use std::io;

// The factors of QPSK and 16QAM, and 2f of 16QAM with its two neighbours. They are written out again and not taken from `constellation`:
// the program holds the core's constants against its own.
const QPSK_FACTOR: f64 = 6369051672525773.0 / 9007199254740992.0;

const QAM_FACTOR: f64 = 5696652996790543.0 / 18014398509481984.0;

const TWICE: f64 = 5696652996790543.0 / 9007199254740992.0;

const TWICE_UP: f64 = 5696652996790544.0 / 9007199254740992.0;

const TWICE_DOWN: f64 = 5696652996790542.0 / 9007199254740992.0;

// The coordinates that are special by themselves.
const SPECIAL: [f64; 21] = [
    0.0,
    -0.0,
    f64::INFINITY,
    f64::NEG_INFINITY,
    f64::NAN,
    5e-324,
    -5e-324,
    TWICE,
    -TWICE,
    TWICE_UP,
    TWICE_DOWN,
    -TWICE_UP,
    -TWICE_DOWN,
    QAM_FACTOR,
    -QAM_FACTOR,
    3.0 * QAM_FACTOR,
    -3.0 * QAM_FACTOR,
    f64::MAX,
    f64::MIN,
    QPSK_FACTOR,
    -QPSK_FACTOR,
];

// The edges of what is lost, each between its two neighbours: f/8 of BPSK, QPSK and 16QAM, and the low and the high end about 2f.
const EDGES: [f64; 15] = [
    9007199254740991.0 / 72057594037927936.0,
    0.125,
    4503599627370497.0 / 36028797018963968.0,
    6369051672525772.0 / 72057594037927936.0,
    6369051672525773.0 / 72057594037927936.0,
    6369051672525774.0 / 72057594037927936.0,
    5696652996790542.0 / 144115188075855872.0,
    5696652996790543.0 / 144115188075855872.0,
    5696652996790544.0 / 144115188075855872.0,
    5340612184491133.0 / 9007199254740992.0,
    5340612184491134.0 / 9007199254740992.0,
    5340612184491135.0 / 9007199254740992.0,
    6052693809089951.0 / 9007199254740992.0,
    6052693809089952.0 / 9007199254740992.0,
    6052693809089953.0 / 9007199254740992.0,
];

// All coordinates that are sliced: the special ones, then six an edge, itself between its neighbours, and the same with a minus.
const COORDINATES: usize = 51;

fn value(k: usize) -> f64
    requires { k < 51 }
{
    if k < 21 {
        return SPECIAL[k];
    }
    let at = k - 21;
    let x = EDGES[at / 6 * 3 + at % 3];
    if at % 6 < 3 { x } else { -x }
}

// A float's bits, and 0 for a NaN, which has no bits of its own.
fn bits_of(x: f64) -> u64 {
    if x.is_nan() { 0 } else { x.to_bits() }
}

// A refusal's number, and the place of a wrong bit.
fn refused(rt: &impl Print, r: Refusal) -> io::Result<()> {
    print!(rt; "refused {}", r.number())?;
    if let Refusal::Item(place) = r {
        print!(rt; " {place}")?;
    }
    println!(rt)
}

fn mapping(rt: &impl Print, modulation: u8, bits: [u8; 4]) -> io::Result<()> {
    let [d0, d1, d2, d3] = bits;
    match constellation::map(modulation, d0, d1, d2, d3) {
        Ok(p) => println!(rt; "{:016x} {:016x}", bits_of(p.i), bits_of(p.q)),
        Err(r) => refused(rt, r),
    }
}

fn slicing(rt: &impl Print, modulation: u8, received: Received) -> io::Result<()> {
    match slicing::slice(modulation, received) {
        Ok(Sliced::One(a)) => println!(rt; "{a}"),
        Ok(Sliced::Two(a, b)) => println!(rt; "{a}{b}"),
        Ok(Sliced::Four(a, b, c, d)) => println!(rt; "{a}{b}{c}{d}"),
        Err(r) => refused(rt, r),
    }
}

// The point of the n bits of v, from the least significant on.
fn map_line(rt: &impl Print, modulation: u8, n: usize, v: u8) -> io::Result<()> {
    let bits = [v % 2, v / 2 % 2, v / 4 % 2, v / 8 % 2];
    print!(rt; "map {modulation} ")?;
    for bit in bits.iter().take(n) {
        rt.print(*bit)?;
    }
    print!(rt; " ")?;
    mapping(rt, modulation, bits)
}

// All points of a modulation of n bits. `main` says n with the modulation, so that the lines go by no number of the core.
fn map_lines(rt: &impl Print, modulation: u8, n: usize) -> io::Result<()>
    requires { n < 5 }
{
    for v in 0..1 << n {
        map_line(rt, modulation, n, v)?;
    }
    Ok(())
}

// Slices a coordinate with each.
fn slice_row(rt: &impl Print, modulation: u8, a: usize) -> io::Result<()>
    requires { a < 51 }
{
    for b in 0..COORDINATES {
        print!(rt; "slice {modulation} {a} {b} ")?;
        slicing(rt, modulation, Received::Heard(value(a), value(b)))?;
    }
    Ok(())
}

// Slices all pairs of coordinates.
fn slice_lines(rt: &impl Print, modulation: u8) -> io::Result<()> {
    for a in 0..COORDINATES {
        slice_row(rt, modulation, a)?;
    }
    Ok(())
}

// Maps, for each of a modulation's n bits, a 2 in its place and 0 in the others.
fn bad_lines(rt: &impl Print, modulation: u8, n: usize) -> io::Result<()>
    requires { n < 5 }
{
    for k in 0..n {
        let mut bits = [0; 4];
        bits[k] = 2;
        print!(rt; "map {modulation} bad {k} ")?;
        mapping(rt, modulation, bits)?;
    }
    Ok(())
}

fn main(rt: HostRuntime) -> io::Result<()> {
    map_lines(&rt, 0, 1)?;
    map_lines(&rt, 1, 2)?;
    map_lines(&rt, 2, 4)?;
    for modulation in 0..3 {
        slice_lines(&rt, modulation)?;
    }
    for modulation in 0..3 {
        print!(rt; "slice {modulation} lost ")?;
        slicing(&rt, modulation, Received::Lost)?;
    }
    print!(rt; "map 3 ")?;
    mapping(&rt, 3, [0; 4])?;
    print!(rt; "slice 3 ")?;
    slicing(&rt, 3, Received::Lost)?;
    bad_lines(&rt, 0, 1)?;
    bad_lines(&rt, 1, 2)?;
    bad_lines(&rt, 2, 4)
}
