// The bits that received items of a frame control decide: the votes of its copies, counted on the lanes of the cycle that `diversity`
// copies from, and their strict majority. What is decided is an item again, 2 where there is no majority, and no Option: see
// `votes::majority`.
//
// Internal: nothing here is a public entry, and callers show what a function requires.
#![tactic(auto)]

ghost use Rattle.std.specs.Prelude.{◌≡◌, ◌+◌, ◌*◌, ◌/◌, ◌%◌, ◌<◌, ◌≤◌, length, get_or, replicate};
ghost use Rattle.bits.specs.Lists.{tabulate, written};
ghost use Rattle.votes.specs.Votes.{carries, majority as majority_of, decided};
ghost use Rattle.votes.specs.Loops.Counters.{middle, Adds};
ghost use Rattle.diversity.specs.Lanes.{lane_bit, item_count};
ghost use Rattle.diversity.specs.Loops.Cycle.{cycle_lane};
ghost use Rattle.combining.specs.Loops.Counters.{pair_sum, bit_sum};

use bands::Place;
use diversity::Symbols;
use std::array;
use votes::MIDDLE;

// Where the sum of two counters starts. There is one for each lane of the cycle, and a bit has two.
const TWO_MIDDLES: u8 = 2 * MIDDLE;

// A counter for each lane of the cycle, after the votes of all items, run by run.
fn counters_of(symbols: &Symbols, items: &[u8]) -> [u8; 512]
    requires { item_count symbols.now.carriers symbols.now.offsets.now ≤ length items.now }
    ensures { Adds 512 0 (item_count symbols.now.carriers symbols.now.offsets.now) (carries (cycle_lane symbols.now.carriers symbols.now.offsets.now)) items.now (replicate 512 middle) result }
{
    let mut counters = [MIDDLE; 512];
    for run in symbols.runs() {
        votes::count_run(run.item, run.lane, run.count, items, &mut counters);
    }
    counters
}

// The counters of a place's two lanes as one number: lane I's is the low byte.
fn pair(i: u8, q: u8) -> u16
    ensures { result ≡ i + 256 * q }
{
    u16::from_le_bytes([i, q])
}

// A pair for each place of the cycle, since a loop reads pairs in a row faster than every other byte. By index, since the counters of two
// lanes make one element.
fn pairs(counters: &[u8; 512]) -> [u16; 256]
    ensures { result ≡ tabulate 256 (λ p. get_or counters.now (2 * p) 0 + 256 * get_or counters.now (2 * p + 1) 0) }
{
    array::from_fn(|p| pair(counters[2 * p], counters[2 * p + 1]))
}

// A bit by lane I's counter at its own place and lane Q's at the place 128 on, or back. Their sum is a counter too, modulo 256. Of each
// pair one byte is taken, in the clause's own words: `to_le_bytes` would make two of each for that.
fn decide_bit(own: u16, far: u16) -> u8
    ensures { result ≡ majority_of (2 * middle) ((own % 256 + far / 256) % 256) }
{
    let sum = (own % 256 + far / 256) % 256;
    votes::majority(TWO_MIDDLES, sum as u8)
}

// Half of the bits, from one on such that neither lane wraps within it. `diversity::half_cycle` starts alike, but the bodies differ, and
// one function that takes them as closures would be longer than both.
fn decide_half(first: usize, both: &[u16; 256], bits: &mut [u8])
    requires { (first % 128 ≡ 0) × (first < 256) × (128 ≤ length bits.old) }
    ensures { bits.new ≡ written 128 (λ b. majority_of (2 * middle) (pair_sum both.now (first + b))) bits.old }
{
    let i = usize::from(diversity::lane_i(Place(first), 0));
    let q = usize::from(diversity::lane_q(Place(first), 0));
    // By index: a zip would be of three parts, and nothing is proved of what a zip of `iter_mut` writes.
    for b in 0..128 {
        bits[b] = decide_bit(both[i + b], both[q + b]);
    }
}

// All bits, by the pairs.
fn decide_pairs(both: &[u16; 256]) -> [u8; 256]
    ensures { result ≡ tabulate 256 (λ b. majority_of (2 * middle) (pair_sum both.now b)) }
{
    let mut bits = [0; 256];
    decide_half(0, both, &mut bits);
    decide_half(128, both, &mut bits[128..]);
    bits
}

// What the counters, which started in the middle, decide.
fn decide_counters(counters: &[u8; 512]) -> [u8; 256]
    ensures { result ≡ tabulate 256 (λ b. majority_of (2 * middle) (bit_sum counters.now b)) }
{
    decide_pairs(&pairs(counters))
}

// Each coded bit by strict majority of its copies: 0, 1, or 2 where there is none. A counter has room for the votes of 31 symbols.
pub fn decide(symbols: &Symbols, items: &[u8]) -> [u8; 256]
    requires few { length symbols.now.offsets.now < 32 }
    requires whole { item_count symbols.now.carriers symbols.now.offsets.now ≤ length items.now }
    ensures { result ≡ tabulate 256 (decided (item_count symbols.now.carriers symbols.now.offsets.now) (carries (lane_bit symbols.now.carriers symbols.now.offsets.now)) items.now) }
{
    decide_counters(&counters_of(symbols, items))
}
