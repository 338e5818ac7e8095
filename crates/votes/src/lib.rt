// Votes: what two items and two counts say, and counters of votes. The definitions of copies, votes and damage are in specs.
//
// Internal: nothing here is a public entry, and callers show what a function requires.
#![tactic(auto)]

ghost use Rattle.std.specs.Prelude.{◌≡◌, ◌+◌, ◌≤◌, length, if◌then◌else◌, nat_eq};
ghost use Rattle.votes.specs.Votes.{carries, majority as majority_of};
ghost use Rattle.votes.specs.Loops.Counters.{after_item, Adds};

// Where a counter of votes starts: so low that two counters of a bit fit one byte together.
pub const MIDDLE: u8 = 64;

// 1 where two bytes are equal, else 0.
pub fn same(a: u8, b: u8) -> u8
    ensures value { result ≡ (if nat_eq a b then 1 else 0) }
    ensures bit { result ≤ 1 }
{
    u8::from(a == b)
}

// The strict majority of two counts: 0, 1, or 2 where there is none. A number, since a decided bit is an item again, of which 2 means lost,
// as the definitions `majority` and `decided` have it.
#[tactic(auto, unfolding(crate::specs::Votes::majority))]
pub fn majority(zeros: u8, ones: u8) -> u8
    ensures { result ≡ majority_of zeros ones }
{
    // A match on `cmp` is 20 times slower in a loop over counters.
    if ones < zeros {
        0
    } else if zeros < ones {
        1
    } else {
        2
    }
}

// A counter after one item: up for a one, down for a zero, modulo 256 on purpose: a counter has few votes in all, in any order.
pub fn voted(counter: u8, item: u8) -> u8
    ensures { result ≡ after_item counter item }
{
    // A match on the item takes twice the time where counters are not in a row.
    counter
        .wrapping_add(u8::from(item == 1))
        .wrapping_sub(u8::from(item == 0))
}

// The votes of `count` items from item n on, which carry bits in a row, from bit `at` on.
pub fn count_run(n: usize, at: usize, count: usize, items: &[u8], counters: &mut [u8])
    requires { (n + count ≤ length items.now) × (at + count ≤ length counters.old) }
    ensures { Adds (length counters.old) n count (carries (λ j. at + j)) items.now counters.old counters.new }
{
    let run = &mut counters[at..at + count];
    // The items by index: with a zip of `iter_mut` the goal `returns` stays open.
    for (i, counter) in run.iter_mut().enumerate() {
        *counter = voted(*counter, items[n + i]);
    }
}
