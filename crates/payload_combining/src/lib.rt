// The coded bits that received items of a payload decide: by strict majority of their copies, which are counted slot by slot.
// What is decided is an item again, 2 where there is no majority, and no Option: see `votes::majority`.
//
// Internal: nothing here is a public entry, and callers show what a function requires.
#![tactic(auto)]

ghost use Rattle.std.specs.Prelude.{◌≡◌, ℕ, ◌+◌, ◌*◌, ◌<◌, ◌≤◌, length, get_or, map};
ghost use Rattle.bits.specs.Lists.{written};
ghost use Rattle.bits.specs.Permutations.{Permutes};
ghost use Rattle.votes.specs.Votes.{majority as majority_of, decided};
ghost use Rattle.votes.specs.Loops.Counters.{middle, counted, Adds};
ghost use Rattle.payload_layout.specs.Layouts.{items as items_of, group_bits};
ghost use Rattle.payload_layout.specs.Loops.Bounds.{CarrierBits, Laid};
ghost use Rattle.payload_layout.specs.Items.{padded, carries};
ghost use Rattle.payload_copying.specs.Loops.Slots.{Slotted, Carries};
ghost use Rattle.payload_combining.specs.Loops.Copies.{of_one, of_two};
ghost use Rattle.payload_combining.specs.Loops.Groups.{slot_on, group_on, middles};

use payload_copying::{Slot, Slots};
use payload_layout::Layout;
use votes::MIDDLE;

// ---- one copy

// What a bit's only copy decides.
fn of_one(item: u8) -> u8
    ensures { result ≡ of_one item }
{
    item.min(2)
}

// What a bit's two copies decide. By sums and not by cases, which the loop below runs faster.
#[tactic(auto, unfolding(crate::specs::Loops::Copies::of_two))]
fn of_two(a: u8, b: u8) -> u8
    ensures { result ≡ of_two a b }
{
    let zeros = votes::same(a, 0) + votes::same(b, 0);
    let ones = votes::same(a, 1) + votes::same(b, 1);
    votes::majority(zeros, ones)
}

// What items that are the only copies of the bits in order decide, at the start of `out`. By index on one side here and in `decide_twos`,
// since nothing is proved of what a zip of `iter_mut` writes: the loop's invariant can't name `out` while the iterator has it.
fn decide_ones(items: &[u8], out: &mut [u8])
    requires { length items.now ≤ length out.old }
    ensures { out.new ≡ written (length items.now)
        (λ b. of_one (get_or items.now b 0)) out.old }
{
    for (b, &item) in items.iter().enumerate() {
        out[b] = of_one(item);
    }
}

// What items and their second copies in the pad decide, at the start of `out`.
fn decide_twos(items: &[u8], pad: &[u8], out: &mut [u8])
    requires { (length pad.now ≤ length items.now) × (length pad.now ≤ length out.old) }
    ensures { out.new ≡ written (length pad.now)
        (λ b. of_two (get_or items.now b 0) (get_or pad.now b 0)) out.old }
{
    for (b, &again) in pad.iter().enumerate() {
        out[b] = of_two(items[b], again);
    }
}

// The items before the pad carry the bits in order, and so do those of the pad, so a bit has one copy or two.
fn decide_once(l: Layout, items: &[u8], out: &mut [u8])
    requires { (Laid l) × (l.copies ≡ 1) × (length items.now ≡ items_of l) × (l.coded ≤ length out.old) }
    ensures { out.new ≡ written l.coded (decided (items_of l) (carries l) items.now) out.old }
{
    let first = l.coded;
    decide_ones(&items[..first], out);
    decide_twos(items, &items[first..], out);
}

// ---- more copies

// The fewest bits of a group that are counted as a run: from here on several are counted at a time.
const SHORTEST_RUN: usize = 8;

// The carriers of `items`, put back where the given order takes them from. By index: `copy_carrier` takes a place on both sides,
// one of them from the order.
fn spread_by<const BITS: usize>(order: &[u16], items: &[u8], group: &mut [u8])
    requires room { (length order.now * BITS ≤ length items.now) × (length order.now * BITS ≤ length group.old) }
    requires permutes { Permutes (length order.now) (λ p. get_or order.now p 0) }
    ensures { (p e : ℕ) → p < length order.now → e < BITS → get_or group.new (get_or order.now p 0 * BITS + e) 0 ≡ get_or items.now (p * BITS + e) 0 }
{
    for (p, &address) in order.iter().enumerate() {
        payload_copying::copy_carrier::<BITS>(items, p * BITS, group, usize::from(address) * BITS);
    }
}

// The same, of carriers with so many bits each. The width is picked as in `payload_copying::gather`.
fn spread(bits: usize, order: &[u16], items: &[u8], group: &mut [u8])
    requires carrier_bits { (CarrierBits bits) × (length order.now ≤ 410) × (length order.now * bits ≤ length items.now) × (length order.now * bits ≤ length group.old) }
    requires permutes { Permutes (length order.now) (λ p. get_or order.now p 0) }
    ensures { (p e : ℕ) → p < length order.now → e < bits → get_or group.new (get_or order.now p 0 * bits + e) 0 ≡ get_or items.now (p * bits + e) 0 }
{
    match bits {
        1 => spread_by::<1>(order, items, group),
        2 => spread_by::<2>(order, items, group),
        _ => spread_by::<4>(order, items, group),
    }
}

// The votes of a slot's group, in order: a run of the coded bits, and in the last group a run of pads after it.
fn count_group(slots: &Slots, slot: Slot, group: &[u8; 816], counters: &mut [u8])
    requires { (Carries slots.now.layout slot) × (length counters.old ≡ slots.now.layout.coded) }
    ensures { Adds slots.now.layout.coded 0 (group_bits slots.now.layout) (group_on slots.now.layout slot.copy slot.group) group.now counters.old counters.new }
{
    let Layout { coded, pad, .. } = slots.layout;
    let group_bits = slots.group_bits();
    let from = slot.group * group_bits;
    if from + group_bits <= coded {
        votes::count_run(0, from, group_bits, group, counters);
        return;
    }
    let rest = coded - from;
    votes::count_run(0, from, rest, group, counters);
    votes::count_run(rest, slot.copy * pad, group_bits - rest, group, counters);
}

// The votes of a slot, whose carriers are put back in order.
fn count_wide(slots: &Slots, slot: Slot, items: &[u8], group: &mut [u8; 816], counters: &mut [u8])
    requires { (Carries slots.now.layout slot) × (length items.now ≡ group_bits slots.now.layout) × (length counters.old ≡ slots.now.layout.coded) }
    ensures { counters.new ≡ counted slots.now.layout.coded (group_bits slots.now.layout) (slot_on slots.now.layout slot.copy slot.group) items.now counters.old }
{
    spread(slots.layout.bits, slots.order(slot.copy), items, group);
    count_group(slots, slot, group, counters);
}

// The coded bit that bit x of the padded data of copy k is.
#[tactic(auto, unfolding(payload_layout::specs::Items::padded))]
fn padded_bit(slots: &Slots, k: usize, x: usize) -> usize
    requires { (k < slots.now.layout.copies) × (x < slots.now.layout.coded + slots.now.layout.pad) }
    ensures value { result ≡ padded slots.now.layout k x }
    ensures within { result < slots.now.layout.coded }
{
    let Layout { coded, pad, .. } = slots.layout;
    if x < coded { x } else { k * pad + (x - coded) }
}

// The votes of a slot carrier by carrier, where each has one bit.
fn count_narrow(slots: &Slots, slot: Slot, items: &[u8], counters: &mut [u8])
    requires carries { (Carries slots.now.layout slot) × (slots.now.layout.bits ≡ 1) }
    requires len { (length items.now ≡ group_bits slots.now.layout) × (length counters.old ≡ slots.now.layout.coded) }
    ensures { counters.new ≡ counted slots.now.layout.coded (group_bits slots.now.layout) (slot_on slots.now.layout slot.copy slot.group) items.now counters.old }
{
    let from = slot.group * slots.group_carriers();
    for (&address, &item) in slots.order(slot.copy).iter().zip(items) {
        let at = padded_bit(slots, slot.copy, from + usize::from(address));
        counters[at] = votes::voted(counters[at], item);
    }
}

// The votes of a slot. A short run would be counted item by item too, so its carriers need not be put back.
fn count_slot(slots: &Slots, slot: Slot, items: &[u8], group: &mut [u8; 816], counters: &mut [u8])
    requires { (Carries slots.now.layout slot) × (length items.now ≡ group_bits slots.now.layout) × (length counters.old ≡ slots.now.layout.coded) }
    ensures { counters.new ≡ counted slots.now.layout.coded (group_bits slots.now.layout) (slot_on slots.now.layout slot.copy slot.group) items.now counters.old }
{
    if slots.layout.bits == 1 && slots.group_carriers() < SHORTEST_RUN {
        count_narrow(slots, slot, items, counters);
    } else {
        count_wide(slots, slot, items, group, counters);
    }
}

// All votes, slot by slot. Items on unused carriers have none.
fn count_slots(slots: &Slots, items: &[u8], counters: &mut [u8])
    requires { (length items.now ≡ items_of slots.now.layout) × (counters.old ≡ middles slots.now.layout) }
    ensures { counters.new ≡ counted slots.now.layout.coded (items_of slots.now.layout) (carries slots.now.layout) items.now (middles slots.now.layout) }
{
    let group_bits = slots.group_bits();
    // a slot's group, of 816 bits at most, as in `payload_copying`
    let mut group = [0u8; 816];
    for slot in slots.walk() {
        let end = slot.start + group_bits;
        count_slot(slots, slot, &items[slot.start..end], &mut group, counters);
    }
}

// What a counter decides: it stands above the middle for more ones than zeros, and below for fewer.
fn settled(counter: u8) -> u8
    ensures { result ≡ majority_of middle counter }
{
    votes::majority(MIDDLE, counter)
}

// Each counter becomes what it decides.
fn settle(counters: &mut [u8])
    ensures { counters.new ≡ map (majority_of middle) counters.old }
{
    for counter in counters.iter_mut() {
        *counter = settled(*counter);
    }
}

// The counters stand in `out` until they are settled there.
fn decide_copies(l: Layout, items: &[u8], out: &mut [u8])
    requires { (Slotted l) × (length items.now ≡ items_of l) × (l.coded ≤ length out.old) }
    ensures { out.new ≡ written l.coded (decided (items_of l) (carries l) items.now) out.old }
{
    let counters = &mut out[..l.coded];
    counters.fill(MIDDLE);
    count_slots(&Slots::of(l), items, counters);
    settle(counters);
}

// Each coded bit by strict majority of its copies, at the start of `out`: 0, 1, or 2 where there is none.
pub fn decide(l: Layout, items: &[u8], out: &mut [u8])
    requires { (Laid l) × (length items.now ≡ items_of l) × (l.coded ≤ length out.old) }
    ensures { out.new ≡ written l.coded (decided (items_of l) (carries l) items.now) out.old }
{
    if l.copies == 1 {
        decide_once(l, items, out);
    } else {
        decide_copies(l, items, out);
    }
}
