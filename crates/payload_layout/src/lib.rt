// A payload's layout: the numbers by which its coded bits stand on the carriers, copied as often as a card says.
//
// Internal: nothing here is a public entry, and callers show what a function requires.
#![tactic(auto)]

ghost use Rattle.std.specs.Prelude.{◌≡◌, ◌<◌, ◌≤◌};
ghost use Rattle.card.specs.Card.{copy_code};
ghost use Rattle.bands.specs.Bands.{band_count};
ghost use Rattle.payload_layout.specs.Layouts.{all_interleavers, group_interleavers, last_symbol_bits, last_group_bits, shift_run, rounded_down, layout_for, layout_of, items as items_of};
ghost use Rattle.payload_layout.specs.Loops.Bounds.{Laid};

// A column of Table 13 of source 000: the interleavers of all copies, and of a group.
#[derive(Clone, Copy)]
struct Interleavers {
    all: usize,
    group: usize,
}

// Table 13 by copy code, with a column for one copy.
const INTERLEAVERS: [Interleavers; 6] = [
    Interleavers { all: 1, group: 1 },
    Interleavers { all: 8, group: 4 },
    Interleavers { all: 8, group: 2 },
    Interleavers { all: 10, group: 2 },
    Interleavers { all: 14, group: 2 },
    Interleavers { all: 11, group: 1 },
];

// The numbers of a payload's layout. That they fit together (`Laid`) is asked where it is needed: `layout_of` promises the section's
// numbers for any count of coded bits, and `Laid` holds for those of a block.
#[derive(Clone, Copy)]
pub struct Layout {
    // carriers of a symbol, bits a carrier, and symbols
    pub carriers: usize,
    pub bits: usize,
    pub symbols: usize,
    // coded bits, and the coded bits that fill up a copy's last group
    pub coded: usize,
    pub pad: usize,
    // copies, and how many of them in a row have one shift of their groups
    pub copies: usize,
    pub run: usize,
    // interleavers of a group, carriers of an interleaver, and the step of its addresses
    pub interleavers: usize,
    pub span: usize,
    pub step: usize,
}

// The column for so many copies. That their code is one of the six, and that there are coded bits, fewer than 65536, stands in three
// contracts and in no type: `layout_of` is called with plain numbers, and promises what `layout_of` of specs/ says of just these.
fn column(copies: usize) -> Interleavers
    requires { copy_code copies < 6 }
    ensures { (result.all ≡ all_interleavers copies) × (result.group ≡ group_interleavers copies) }
{
    INTERLEAVERS[card::copy_code(copies as u64) as usize]
}

// The coded bits in the last symbol, where each has `symbol` of them.
#[tactic(auto, unfolding(crate::specs::Layouts::last_symbol_bits))]
fn last_symbol_bits(symbol: usize, coded: usize) -> usize
    requires { 0 < symbol }
    ensures { result ≡ last_symbol_bits symbol coded }
{
    match coded % symbol {
        0 => symbol,
        rest => rest,
    }
}

// The coded bits in the last group, where each has `group` of them.
#[tactic(auto, unfolding(crate::specs::Layouts::last_group_bits))]
fn last_group_bits(symbol: usize, group: usize, coded: usize) -> usize
    requires { (0 < symbol) × (0 < group) }
    ensures { (result ≡ last_group_bits symbol group coded) × (result ≤ group) }
{
    match coded % symbol {
        0 => group,
        rest => rest - group * ((rest - 1) / group),
    }
}

// How many copies in a row have one shift, with so many bits in the last symbol.
#[tactic(auto, unfolding(crate::specs::Layouts::shift_run))]
fn shift_run(copies: usize, last: usize, group: usize) -> usize
    requires { (0 < copies) × (copies ≤ 11) × (group < 65536) }
    ensures { result ≡ shift_run copies last group }
{
    match copies {
        4 if last <= group => 4,
        4 if last <= 2 * group => 2,
        // 4 is meant, and not 1: by the section's cases (000, 5.1.5.5.4) no copy is shifted here
        4 if last <= 3 * group => 4,
        4 => 1,
        _ if last <= (copies - 1) * group => copies,
        _ => 1,
    }
}

// The step of addresses by the listing's cases: rounded down to 0 or a power of two. It has none from 16 on, and no band comes there.
fn rounded_down(s: usize) -> usize
    ensures { result ≡ rounded_down s }
{
    match s {
        0 => 0,
        1 => 1,
        2..=3 => 2,
        4..=7 => 4,
        8..=15 => 8,
        _ => s,
    }
}

// One copy: the coded bits in order, and the last symbol filled. One division where the section's arithmetic takes several.
fn one_copy(carriers: usize, bits: usize, coded: usize) -> Layout
    requires { (0 < carriers) × (carriers ≤ 411) × (0 < bits) × (bits ≤ 4) × (0 < coded) × (coded < 65536) }
    ensures { result ≡ layout_for carriers bits 1 coded }
{
    let symbol = bits * carriers;
    let symbols = coded.div_ceil(symbol);
    Layout {
        carriers,
        bits,
        symbols,
        coded,
        pad: symbols * symbol - coded,
        copies: 1,
        run: 1,
        interleavers: 1,
        span: carriers,
        step: 0,
    }
}

// More copies, by the section's arithmetic.
fn copied(carriers: usize, bits: usize, copies: usize, coded: usize) -> Layout
    requires carriers_bound { (carriers ≤ 411) × (0 < bits) × (bits ≤ 4) × (0 < coded) × (coded < 65536) }
    requires copies_bound { (copy_code copies < 6) × (1 < copies) × (all_interleavers copies ≤ carriers) }
    ensures { result ≡ layout_for carriers bits copies coded }
{
    let Interleavers { all, group } = column(copies);
    let span = carriers / all;
    let used = all * span;
    let symbol_bits = bits * used;
    let group_bits = bits * (used / copies);
    let pad = group_bits - last_group_bits(symbol_bits, group_bits, coded);
    let run = shift_run(copies, last_symbol_bits(symbol_bits, coded), group_bits);
    Layout {
        carriers,
        bits,
        symbols: (coded + pad) / group_bits,
        coded,
        pad,
        copies,
        run,
        interleavers: group,
        span,
        step: rounded_down(span / (2 * all)),
    }
}

// The layout of a band and a modulation for so many copies of the coded bits.
pub fn layout_of(band: usize, modulation: usize, copies: usize, coded: usize) -> Layout
    requires { (band < band_count) × (modulation < 3) × (copy_code copies < 6) × (0 < coded) × (coded < 65536) }
    ensures { result ≡ layout_of band modulation copies coded }
{
    let carriers = bands::Band { number: band }.carriers();
    let bits = card::carrier_bits(modulation);
    if copies == 1 {
        return one_copy(carriers, bits, coded);
    }
    copied(carriers, bits, copies, coded)
}

// The items of a layout.
#[tactic(auto, unfolding(crate::specs::Layouts::items))]
pub fn item_count(l: Layout) -> usize
    requires { Laid l }
    ensures { result ≡ items_of l }
{
    l.symbols * (l.carriers * l.bits)
}
