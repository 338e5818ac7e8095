// The pair interleaver of a block (000, 5.1.5.3): the pairs that encoder 2 reads.
//
// Internal: nothing here is a public entry. A function with a `requires` is called only where its caller has shown it.
#![tactic(auto)]

ghost use Rattle.std.specs.Prelude.{◌≡◌, ◌+◌, ◌*◌, ◌<◌, ◌≤◌, length, get_or, slice_index, EachIndex};
ghost use Rattle.bits.specs.Bits.{bit_of};
ghost use Rattle.bits.specs.Lists.{written};
ghost use Rattle.card.specs.Modes.{block_bytes};
ghost use Rattle.constituent.specs.Pairs.{pair_at};
ghost use Rattle.constituent.specs.Loops.Bytes.{four_from};
ghost use Rattle.pair_interleaver.specs.Interleave.{starts, exchanged, interleaved};
ghost use Rattle.pair_interleaver.specs.Loops.Gather.{digit_of, twice, place_in, picked, by_rows, exchanged_byte, SumsFit, StartsBelow, Gathering, Interleaving};

// The table S of each kind.
const STARTS: [&[u16]; 5] = [
    &[53, 20, 9, 32, 62, 39, 51, 18],
    &[
        1, 200, 255, 166, 221, 132, 187, 98, 153, 64, 119, 30, 85, 284, 51, 250, 17, 216,
    ],
    &[
        383, 68, 262, 180, 484, 363, 302, 152, 405, 529, 97, 11, 333, 509, 40, 198, 236, 454, 428,
        124, 273, 493, 73, 389, 162, 293, 2, 211, 467, 252, 411, 183, 310, 86,
    ],
    &[
        309, 175, 737, 667, 1024, 224, 622, 962, 527, 845, 926, 1052, 366, 54, 249, 784, 108, 551,
        410, 479, 823, 866, 442, 654, 321, 33, 85, 610, 730, 765, 1038, 352, 954,
    ],
    &[
        1183, 32, 425, 1434, 165, 331, 1574, 1039, 1084, 1332, 1513, 536, 213, 1908, 761, 1231,
        1659, 476, 1842, 809, 2007, 895, 1717, 1950, 101, 937, 618, 1606, 704, 1786, 570, 843, 349,
        2038, 1102, 1260, 235, 40, 648, 1347,
    ],
];

// The two digits of each element to some base.
fn split(src: &[u8], base: u8, out: &mut [u8])
    requires { (0 < base) × (length src.now < 2081) × (length out.old ≡ 2 * length src.now) }
    ensures { EachIndex out.new (λ t. slice_index out.new t ≡ digit_of base src.now t) }
{
    // By index: with a zip of `chunks_exact_mut`, `returns` stays open.
    for (i, x) in src.iter().enumerate() {
        out[2 * i] = *x / base % base;
        out[2 * i + 1] = *x % base;
    }
}

// The pairs of some bytes, twice, so that a place that runs past the last pair needs no test. Two steps of splitting are faster than
// one. The array has the most that a block has, as `rows` of `second_bytes` has: memory is fixed, with no heap.
fn list_twice(bytes: &[u8], out: &mut [u8])
    requires { (length bytes.now ≤ 520) × (length out.old ≡ 8 * length bytes.now) }
    ensures { EachIndex out.new (λ t. slice_index out.new t ≡ twice (4 * length bytes.now) (pair_at (bit_of bytes.now)) t) }
{
    let n = 2 * bytes.len();
    let l = 4 * bytes.len();
    let mut halves = [0u8; 1040];
    split(bytes, 16, &mut halves[..n]);
    let (first, again) = out.split_at_mut(l);
    split(&halves[..n], 4, first);
    bits::put(first, again);
}

// The table's entries, each moved up. The table by index: with a zip of `iter_mut` and the table, `returns` stays open.
fn moved_up(starts: &[u16], by: u16, out: &mut [u16])
    requires { (length out.old ≡ length starts.now) × SumsFit starts.now by }
    ensures { EachIndex out.new (λ k. slice_index out.new k ≡ slice_index starts.now k + by) }
{
    for (k, place) in out.iter_mut().enumerate() {
        *place = starts[k] + by;
    }
}

// Where the pairs of four rows stand, after the first pair of the row below them.
fn places(starts: &[u16], out: &mut [u16])
    requires { (length starts.now ≤ 40) × (length out.old ≡ 4 * length starts.now) × StartsBelow starts.now }
    ensures { EachIndex out.new (λ x. slice_index out.new x ≡ place_in starts.now x) }
{
    let n = starts.len();
    // By index: where a row starts and how far it is moved both go by it; `chunks_exact_mut(n)` would ask besides that the table isn't empty.
    for r in 0..4 {
        let at = r * n;
        moved_up(starts, ((3 - r) * n) as u16, &mut out[at..at + n]);
    }
}

// What stands in a list at place t.
#[tactic(auto, unfolding(crate::specs::Loops::Gather::picked))]
fn pick(places: &[u16], list: &[u8], t: usize) -> u8
    requires { (t < length places.now) × (get_or places.now t 0 < length list.now) }
    ensures { result ≡ picked places.now list.now t }
{
    list[usize::from(places[t])]
}

// The pairs at some places of a list, four to a byte.
fn gather(places: &[u16], list: &[u8], out: &mut [u8])
    requires { Gathering places.now list.now out.old }
    ensures { EachIndex out.new (λ i. slice_index out.new i ≡ four_from (picked places.now list.now) i) }
{
    // By index: with a zip of `iter_mut` and `chunks_exact`, `returns` stays open.
    for (i, byte) in out.iter_mut().enumerate() {
        *byte = constituent::four(
            pick(places, list, 4 * i),
            pick(places, list, 4 * i + 1),
            pick(places, list, 4 * i + 2),
            pick(places, list, 4 * i + 3),
        );
    }
}

// The pairs of a list in the interleaver's order: four rows of it at a time, each lower by four rows than the one before.
fn interleave(places: &[u16], list: &[u8], out: &mut [u8])
    requires { Interleaving places.now list.now out.old }
    ensures { EachIndex out.new (λ i. slice_index out.new i ≡ four_from (by_rows places.now list.now (length out.old)) i) }
{
    let n = out.len();
    let width = places.len() / 4;
    // By index: with `chunks_exact_mut(width).enumerate()`, the bound of `base` stays open.
    for r in 0..n / width {
        let at = r * width;
        let base = 4 * (n - at) - 3 * width;
        gather(places, &list[base..], &mut out[at..at + width]);
    }
}

// A pair with its two bits exchanged.
fn exchanged_pair(pair: u8) -> u8
    requires { pair < 4 }
    ensures { result ≡ exchanged pair }
{
    pair % 2 * 2 + pair / 2
}

// A byte's pairs as they go out: the first and the third, which go out at even places, with their bits exchanged.
#[tactic(auto, unfolding(crate::specs::Loops::Gather::exchanged_byte))]
fn exchange(byte: u8) -> u8
    ensures { result ≡ exchanged_byte byte }
{
    constituent::four(
        exchanged_pair(byte / 64),
        byte / 16 % 4,
        exchanged_pair(byte / 4 % 4),
        byte % 4,
    )
}

// All bytes, exchanged.
fn exchange_all(out: &mut [u8])
    ensures { EachIndex out.new (λ i. slice_index out.new i ≡ exchanged_byte (slice_index out.old i)) }
{
    for byte in out.iter_mut() {
        *byte = exchange(*byte);
    }
}

// The table of a kind.
fn table(kind: usize) -> &'static [u16]
    requires { kind < 5 }
    ensures { result.now ≡ starts kind }
{
    STARTS[kind]
}

// The pairs that encoder 2 reads, four to a byte, at the start of `out`. The list is left with the block's pairs twice.
pub fn second_bytes(kind: usize, bytes: &[u8], list: &mut [u8], out: &mut [u8])
    requires { (kind < 5) × (length bytes.now ≡ block_bytes kind) × (8 * block_bytes kind ≤ length list.old) × (block_bytes kind ≤ length out.old) }
    ensures list_after { list.new ≡ written (8 * length bytes.now) (twice (4 * length bytes.now) (pair_at (bit_of bytes.now))) list.old }
    ensures out_after { out.new ≡ written (block_bytes kind) (four_from (interleaved kind (pair_at (bit_of bytes.now)))) out.old }
{
    let n = bytes.len();
    let starts = table(kind);
    let mut rows = [0u16; 160];
    let four_rows = &mut rows[..4 * starts.len()];
    let pairs = &mut list[..8 * n];
    let second = &mut out[..n];
    places(starts, four_rows);
    list_twice(bytes, pairs);
    interleave(four_rows, pairs, second);
    exchange_all(second);
}
