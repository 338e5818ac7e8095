// The items of a payload that go out: the coded bits once, or copied over the slots of the symbols.
//
// Internal: nothing here is a public entry, and callers show what a function requires. `payload_combining` walks the same slots.
#![tactic(auto)]

ghost use Rattle.std.specs.Prelude.{◌≡◌, ℕ, ◌+◌, ◌-◌, ◌*◌, ◌/◌, ◌<◌, ◌≤◌, length, get_or};
ghost use Rattle.std.specs.Iterator.{at_most};
ghost use Rattle.std.proofs.Props.{props};
ghost use Rattle.bits.specs.Lists.{written};
ghost use Rattle.payload_layout.specs.Layouts.{items as items_of, group_carriers, group_bits, symbol_items};
ghost use Rattle.payload_layout.specs.Loops.Bounds.{CarrierBits, Laid, CarrierBits-prop};
ghost use Rattle.payload_layout.specs.Items.{sent_on};
ghost use Rattle.payload_copying.specs.Loops.Slots.{Slotted, Addresses, Order, slot_no, Standing, Walking, Carries, Gives, slot_bit, Copied, taken, LastGroup};

use payload_layout::Layout;

// ---- the slots

// A layout of more than one copy, and the addresses of its interleavers, side by side: 410 at most, which is band 0 in five copies (10
// interleavers of 41 carriers). A ghost field's fact may have one proof only, which `by` shows of a record field by field.
#[derive(Drop)]
pub struct Slots {
    pub layout: Layout,
    table: [u16; 410],
    ghost slotted: { Slotted layout } by { Prim.hlevel (props, CarrierBits-prop) },
    ghost addresses: { Addresses layout table } by { Prim.hlevel props },
}

// A position of a copy, and the group that stands there.
#[derive(Clone, Copy)]
pub struct Place {
    pub copy: usize,
    pub position: usize,
    pub group: usize,
}

// A slot in which a group of a copy stands. Its items run from `start` to `end`, and the group's are the first of them. It goes with its
// slots through the functions that ask `Carries`, since alone it doesn't say whose it is, and with a reference to them each step would
// borrow them.
#[derive(Clone, Copy)]
pub struct Slot {
    pub copy: usize,
    pub group: usize,
    pub start: usize,
    pub end: usize,
}

impl Slots {
    // The slots of a layout.
    pub fn of(layout: Layout) -> Slots
        requires { Slotted layout }
        ensures { result.layout ≡ layout }
    {
        let mut table = [0u16; 410];
        address_interleaver::fill_table(
            layout.interleavers,
            layout.span,
            layout.step,
            layout.copies * layout.interleavers,
            &mut table,
        );
        Slots { layout, table }
    }

    // The carriers of a group, and its bits.
    pub fn group_carriers(&self) -> usize
        ensures { result ≡ group_carriers self.now.layout }
    {
        self.layout.interleavers * self.layout.span
    }

    pub fn group_bits(&self) -> usize
        ensures { result ≡ group_bits self.now.layout }
    {
        self.group_carriers() * self.layout.bits
    }

    // The bits of the unused carriers of a symbol.
    fn unused_bits(&self) -> usize
        ensures { result + self.now.layout.copies * group_bits self.now.layout ≡ symbol_items self.now.layout }
    {
        self.layout.carriers * self.layout.bits - self.layout.copies * self.group_bits()
    }

    // The order of the carriers in a copy's slots.
    pub fn order(&self, copy: usize) -> &[u16]
        requires { copy < self.now.layout.copies }
        ensures { Order self.now.layout copy result.now }
    {
        let size = self.group_carriers();
        let first = copy * size;
        &self.table[first..first + size]
    }

    // The first place of copy k.
    fn first_place(&self, k: usize) -> Place
        requires { k ≤ self.now.layout.copies }
        ensures { (Standing self.now.layout result) × (slot_no self.now.layout result ≡ k * self.now.layout.symbols) }
    {
        let n = self.layout.symbols;
        let by = k / self.layout.run % n;
        let up = n - by;
        Place {
            copy: k,
            position: 0,
            group: up % n,
        }
    }

    // The place after p.
    fn place_after(&self, p: Place) -> Place
        requires { (Standing self.now.layout p) × (p.copy < self.now.layout.copies) }
        ensures { (Standing self.now.layout result) × (slot_no self.now.layout result ≡ slot_no self.now.layout p + 1) }
    {
        let symbols = self.layout.symbols;
        let position = p.position + 1;
        if position < symbols {
            return Place {
                copy: p.copy,
                position,
                group: address_interleaver::next_place(symbols, p.group),
            };
        }
        self.first_place(p.copy + 1)
    }

    // All slots, by symbol.
    pub fn walk(&self) -> Walk<'_>
        ensures { (result.slots.now.layout ≡ self.now.layout) × (result.start ≡ 0) }
    {
        Walk {
            slots: self,
            place: self.first_place(0),
            lane: 0,
            start: 0,
        }
    }
}

// A walk over the slots: the place of the next one, how many there are before it in its symbol, and its first item.
#[derive(Drop)]
pub struct Walk<'a> {
    slots: &'a Slots,
    place: Place,
    lane: usize,
    start: usize,
    ghost walking: { Walking slots.now.layout place (slot_no slots.now.layout place / slots.now.layout.copies) lane start } by { Prim.hlevel props },
}

impl<'a> Walk<'a> {
    // The walk after the next slot, which ends where that one starts.
    fn after(&self) -> Walk<'a>
        requires { self.now.place.copy < self.now.slots.now.layout.copies }
        ensures same { result.slots.now.layout ≡ self.now.slots.now.layout }
        ensures carries { Carries self.now.slots.now.layout (record { copy = self.now.place.copy; group = self.now.place.group; start = self.now.start; end = result.start }) }
    {
        let slots = self.slots;
        let place = slots.place_after(self.place);
        let lane = self.lane + 1;
        let start = self.start + slots.group_bits();
        if lane < slots.layout.copies {
            return Walk {
                slots,
                place,
                lane,
                start,
            };
        }
        Walk {
            slots,
            place,
            lane: 0,
            start: start + slots.unused_bits(),
        }
    }
}

impl<'a> Iterator for Walk<'a> {
    type Item = Slot;

    ghost next_gives = { λ s r t. (t.slots.now.layout ≡ s.slots.now.layout) × Gives s.slots.now.layout s.start r t.start };

    ghost remaining = { λ s. at_most (items_of s.slots.now.layout - s.start) };

    fn next(&mut self) -> Option<Slot> {
        if self.place.copy == self.slots.layout.copies {
            return None;
        }
        let Place {
            copy,
            position: _,
            group,
        } = self.place;
        let start = self.start;
        *self = self.after();
        Some(Slot {
            copy,
            group,
            start,
            end: self.start,
        })
    }
}

// ---- sending

// A carrier's bits, copied. Bit by bit, since `copy_from_slice` tests at each carrier of two bits whether the slices overlap, which takes
// a tenth more time.
pub fn copy_carrier<const BITS: usize>(src: &[u8], from: usize, out: &mut [u8], to: usize)
    requires { (from + BITS ≤ length src.now) × (to + BITS ≤ length out.old) }
    ensures { Copied BITS src.now from to out.old out.new }
{
    for e in 0..BITS {
        out[to + e] = src[from + e];
    }
}

// The carriers of `src` in the given order, at the start of `out`. By index: `copy_carrier` takes a place on both sides, one of them from
// the order.
fn gather_by<const BITS: usize>(order: &[u16], src: &[u8], out: &mut [u8])
    requires room { length order.now * BITS ≤ length out.old }
    requires by_index { (p : ℕ) → p < length order.now → get_or order.now p 0 * BITS + BITS ≤ length src.now }
    ensures { out.new ≡ written (length order.now * BITS) (taken BITS order.now src.now) out.old }
{
    for (p, &address) in order.iter().enumerate() {
        copy_carrier::<BITS>(src, usize::from(address) * BITS, out, p * BITS);
    }
}

// The same, of carriers with so many bits each. The width is a const parameter, so that the loop over a carrier's bits has a fixed count.
// The match stands here and in `payload_combining::spread`: one for both would take the two loops as closures.
fn gather(bits: usize, order: &[u16], src: &[u8], out: &mut [u8])
    requires carrier_bits { (CarrierBits bits) × (length order.now ≤ 410) × (length order.now * bits ≤ length out.old) }
    requires by_index { (p : ℕ) → p < length order.now → get_or order.now p 0 * bits + bits ≤ length src.now }
    ensures { out.new ≡ written (length order.now * bits) (taken bits order.now src.now) out.old }
{
    match bits {
        1 => gather_by::<1>(order, src, out),
        2 => gather_by::<2>(order, src, out),
        _ => gather_by::<4>(order, src, out),
    }
}

// A copy's last group: the rest of the data, and its pad. A group has 816 bits at most: band 0 in two copies, 204 carriers of 4 bits.
fn last_group(from: usize, tail: usize, pad: usize, coded: &[u8]) -> [u8; 816]
    requires { (from ≤ length coded.now) × (tail + pad ≤ length coded.now) × (length coded.now < 65536) × (length coded.now + pad ≤ from + 816) }
    ensures { (length result ≡ 816) × (LastGroup from tail pad coded.now result) }
{
    let mut group = [0u8; 816];
    bits::put(&coded[from..], &mut group);
    let rest = coded.len() - from;
    let end = tail + pad;
    bits::put(&coded[tail..end], &mut group[rest..]);
    group
}

// The items of a slot's group.
fn lay_group(slots: &Slots, slot: Slot, coded: &[u8], out: &mut [u8])
    requires { (Carries slots.now.layout slot) × (length coded.now ≡ slots.now.layout.coded) × (group_bits slots.now.layout ≤ length out.old) }
    ensures { out.new ≡ written (group_bits slots.now.layout) (λ i. get_or coded.now (slot_bit slots.now.layout slot.copy slot.group i) 0) out.old }
{
    let Layout { bits, pad, .. } = slots.layout;
    let order = slots.order(slot.copy);
    let group_bits = slots.group_bits();
    let from = slot.group * group_bits;
    if from + group_bits <= coded.len() {
        gather(bits, order, &coded[from..], out);
        return;
    }
    let last = last_group(from, slot.copy * pad, pad, coded);
    gather(bits, order, &last, out);
}

// The items of a slot: those of its group, and 0 on unused carriers.
fn lay_slot(slots: &Slots, slot: Slot, coded: &[u8], out: &mut [u8])
    requires { (Carries slots.now.layout slot) × (length coded.now ≡ slots.now.layout.coded) × (slot.end - slot.start ≤ length out.old) }
    ensures { out.new ≡ written (slot.end - slot.start) (λ i. sent_on slots.now.layout (λ b. get_or coded.now b 0) (slot.start + i)) out.old }
{
    let used = slots.group_bits();
    lay_group(slots, slot, coded, out);
    bits::fill(slot.end - slot.start - used, 0, &mut out[used..]);
}

// All items, slot by slot. By each slot's start and not by chunks, since a symbol's last slot is wider, by the unused carriers.
fn lay_slots(slots: &Slots, coded: &[u8], out: &mut [u8])
    requires { (length coded.now ≡ slots.now.layout.coded) × (items_of slots.now.layout ≤ length out.old) }
    ensures { out.new ≡ written (items_of slots.now.layout) (sent_on slots.now.layout (λ b. get_or coded.now b 0)) out.old }
{
    for slot in slots.walk() {
        lay_slot(slots, slot, coded, &mut out[slot.start..]);
    }
}

// One copy: the coded bits in order, and then those from 0 on that fill the last symbol.
fn lay_once(l: Layout, coded: &[u8], out: &mut [u8])
    requires { (Laid l) × (l.copies ≡ 1) × (length coded.now ≡ l.coded) × (items_of l ≤ length out.old) }
    ensures { out.new ≡ written (items_of l) (sent_on l (λ b. get_or coded.now b 0)) out.old }
{
    let first = l.coded;
    let pad = l.pad;
    bits::put(coded, out);
    bits::put(&coded[..pad], &mut out[first..]);
}

// The items of the coded bits, at the start of `out`: their copies, and 0 on unused carriers.
pub fn lay_out(l: Layout, coded: &[u8], out: &mut [u8])
    requires { (Laid l) × (length coded.now ≡ l.coded) × (items_of l ≤ length out.old) }
    ensures { out.new ≡ written (items_of l) (sent_on l (λ b. get_or coded.now b 0)) out.old }
{
    if l.copies == 1 {
        lay_once(l, coded, out);
        return;
    }
    lay_slots(&Slots::of(l), coded, out);
}
