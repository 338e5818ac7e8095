// The copies of frame control's coded bits on the lanes (000, 5.1.4.4).
//
// Internal: nothing here is a public entry, and callers show what a function requires.
#![tactic(auto)]

ghost use Rattle.std.specs.Prelude.{◌≡◌, ◌+◌, ◌-◌, ◌*◌, ◌%◌, ◌^◌, ◌<◌, ◌≤◌, length, slice_index, MatchOption};
ghost use Rattle.std.specs.Iterator.{at_most};
ghost use Rattle.bits.specs.Lists.{tabulate, written};
ghost use Rattle.bands.specs.Bands.{carriers, offsets};
ghost use Rattle.diversity.specs.Lanes.{lane_bit, item_count};
ghost use Rattle.diversity.specs.Loops.Cycle.{cycle_bit, IsRun};

use bands::{Band, Place};

// A frame control's symbols: the carriers of each, and for each its offset. Their items can be counted; how many symbols there may be is
// asked where it matters.
#[derive(Clone, Copy)]
pub struct Symbols<'a> {
    pub carriers: usize,
    pub offsets: &'a [u8],
    pub ghost narrow: { carriers ≤ 512 },
    pub ghost countable: { item_count carriers offsets.now < 2 ^ 64 },
}

impl<'a> Symbols<'a> {
    // Those of a band.
    pub fn on(band: Band) -> Symbols<'static>
        ensures same { (result.carriers ≡ carriers band.number) × (result.offsets.now ≡ offsets band.number) }
        ensures few { length result.offsets.now < 32 }
    {
        Symbols {
            carriers: band.carriers(),
            offsets: band.offsets(),
        }
    }

    // The items on all carriers.
    pub fn item_count(&self) -> usize
        ensures { result ≡ item_count self.now.carriers self.now.offsets.now }
    {
        2 * (self.offsets.len() * self.carriers)
    }

    // The runs of all items, in order.
    pub fn runs(&self) -> Runs<'a>
        ensures { (result.symbols ≡ self.now) × (result.item ≡ 0) }
    {
        Runs {
            symbols: *self,
            begun: 0,
            offset: 0,
            place: self.carriers,
            item: 0,
        }
    }

    // A copy of a coded bit on each lane, run by run.
    pub fn copy_items(&self, coded: &[u8; 256], out: &mut [u8])
        requires { item_count self.now.carriers self.now.offsets.now ≤ length out.old }
        ensures { out.new ≡ written (item_count self.now.carriers self.now.offsets.now) (λ n. slice_index coded.now (lane_bit self.now.carriers self.now.offsets.now n)) out.old }
    {
        let cycle = cycle_of(coded);
        for run in self.runs() {
            let copies = &cycle[run.lane..run.lane + run.count];
            bits::put(copies, &mut out[run.item..run.item + run.count]);
        }
    }
}

// The bit on lane I: the place as a byte plus the symbol's offset, wrapping on purpose.
pub fn lane_i(place: Place, offset: u8) -> u8
    ensures { result ≡ (place.0 + offset) % 256 }
{
    ((place.0 % 256) as u8).wrapping_add(offset)
}

// The bit on lane Q: 128 more.
pub fn lane_q(place: Place, offset: u8) -> u8
    ensures { result ≡ (place.0 + offset + 128) % 256 }
{
    lane_i(place, offset).wrapping_add(128)
}

// A run: from `item` on, `count` items of a symbol carry the bits of as many lanes of the cycle in a row, from `lane` on.
#[derive(Clone, Copy)]
pub struct Run {
    pub item: usize,
    pub lane: usize,
    pub count: usize,
}

// The runs that follow in the symbol begun last, from its place `place` on, and in those after it: each goes up to where lane I's bit
// wraps, or up to the end of its symbol. `item` is the first item of the next run, kept so that no run takes a division.
#[derive(Drop)]
pub struct Runs<'a> {
    pub symbols: Symbols<'a>,
    pub begun: usize,
    pub offset: u8,
    pub place: usize,
    pub item: usize,
    pub ghost in_symbol: { place ≤ symbols.carriers },
    pub ghost at_place: { item + 2 * symbols.carriers ≡ 2 * (begun * symbols.carriers + place) },
    pub ghost under: { place < symbols.carriers → offset ≡ slice_index symbols.offsets.now (begun - 1) },
    pub ghost within: { item ≤ item_count symbols.carriers symbols.offsets.now },
}

impl<'a> Runs<'a> {
    // Begins the next symbol, if the last one is at its end.
    fn begin(&mut self)
        requires { self.old.item < item_count self.old.symbols.carriers self.old.symbols.offsets.now }
        ensures { (self.new.symbols ≡ self.old.symbols) × (self.new.item ≡ self.old.item) × (self.new.place < self.new.symbols.carriers) }
    {
        if self.place == self.symbols.carriers {
            self.offset = self.symbols.offsets[self.begun];
            self.begun += 1;
            self.place = 0;
        }
    }
}

impl<'a> Iterator for Runs<'a> {
    type Item = Run;

    ghost next_gives = { λ s r t.
        (t.symbols ≡ s.symbols)
        × MatchOption r (s.item ≡ item_count s.symbols.carriers s.symbols.offsets.now)
        (λ run. (run.item ≡ s.item) × (t.item ≡ run.item + run.count) × IsRun s.symbols.carriers s.symbols.offsets.now run.item run.lane run.count) };

    ghost remaining = { λ s. at_most (item_count s.symbols.carriers s.symbols.offsets.now - s.item) };

    fn next(&mut self) -> Option<Run> {
        if self.item == self.symbols.item_count() {
            return None;
        }
        self.begin();
        let bit = usize::from(lane_i(Place(self.place), self.offset));
        let length = (self.symbols.carriers - self.place).min(256 - bit);
        let run = Run {
            item: self.item,
            lane: 2 * bit,
            count: 2 * length,
        };
        self.item += run.count;
        self.place += length;
        Some(run)
    }
}

// The coded bits on half a cycle, from a place on such that neither lane wraps within it.
fn half_cycle(place: usize, coded: &[u8; 256], cycle: &mut [u8])
    requires { (place % 128 ≡ 0) × (256 ≤ length cycle.old) }
    ensures { cycle.new ≡ written 256 (λ n. slice_index coded.now (cycle_bit (2 * place + n))) cycle.old }
{
    let i = usize::from(lane_i(Place(place), 0));
    let q = usize::from(lane_q(Place(place), 0));
    // By index: a zip would be of three parts, and nothing is proved of what a zip with `chunks_exact_mut` writes.
    for c in 0..128 {
        cycle[2 * c] = coded[i + c];
        cycle[2 * c + 1] = coded[q + c];
    }
}

// The cycle: the 512 lanes of 256 places under offset 0, I then Q, after which the bits repeat. On each lane the coded bit that it carries.
fn cycle_of(coded: &[u8; 256]) -> [u8; 512]
    ensures { result ≡ tabulate 512 (λ q. slice_index coded.now (cycle_bit q)) }
{
    let mut cycle = [0; 512];
    half_cycle(0, coded, &mut cycle);
    half_cycle(128, coded, &mut cycle[256..]);
    cycle
}
