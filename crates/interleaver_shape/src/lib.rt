// The numbers of the channel interleaver by kind and rate (000, Table 11 and 5.1.5.4.4): rows, steps, offsets and groups, and how many
// coded bits a block has.
//
// Internal: nothing here is a public entry. A function with a `requires` is called only where its caller has shown it.
#![tactic(auto)]

ghost use Rattle.std.specs.Prelude.{◌≡◌, false, ◌*◌, ◌<◌};
ghost use Rattle.card.specs.Modes.{block_bytes};
ghost use Rattle.interleaver_shape.specs.Shapes.{shape_of, coded_bits};
ghost use Rattle.interleaver_shape.specs.Loops.Bounds.{Sound, Small, Near, Paired};

use coding::Coding;

// The shape of the interleaver at one kind and rate (000, Table 11).
#[derive(Clone, Copy)]
pub struct Shape {
    // data rows, and parity rows
    pub rows: usize,
    pub parity: usize,
    // from row to row in a pass, and what moves a parity row up
    pub step: usize,
    pub offset: usize,
    // data nibbles to a parity nibble, and how many of them come before it
    pub group: usize,
    pub lead: usize,
    // Parity rows are read on without a restart: a number of the shape like the others, which the definitions read too, and by which
    // `interleaver::move_bits` picks its walk.
    pub continuous: bool,
}

// A row of Table 11 of 000.
struct Walk {
    offset: usize,
    step: usize,
}

// Kinds 0 to 4 at rate 1/2, then kind 4 at rate 16/18.
const WALKS: [Walk; 6] = [
    Walk {
        offset: 16,
        step: 4,
    },
    Walk {
        offset: 72,
        step: 16,
    },
    Walk {
        offset: 136,
        step: 16,
    },
    Walk {
        offset: 264,
        step: 16,
    },
    Walk {
        offset: 520,
        step: 16,
    },
    Walk {
        offset: 60,
        step: 11,
    },
];

// The data nibbles to a parity nibble, and how many of them come before it.
struct Group {
    nibbles: usize,
    lead: usize,
}

// By rate: 1 + 1 nibbles, and 3 + 1 + 5.
const GROUPS: [Group; 2] = [
    Group {
        nibbles: 1,
        lead: 1,
    },
    Group {
        nibbles: 8,
        lead: 3,
    },
];

// The number of data rows: four bits make a row, so a byte makes two. A kind is enough, with any rate.
pub fn data_rows(kind: usize) -> usize
    requires { kind < 5 }
    ensures { result ≡ block_bytes kind * 2 }
{
    card::block_bytes(kind) * 2
}

// The shape of a kind and rate.
pub fn shape_of(coding: Coding) -> Shape
    ensures { (result ≡ shape_of coding.kind coding.rate) × (Sound result) × (Small result) × (Near result) × (result.continuous ≡ false → Paired result) }
{
    let rows = data_rows(coding.kind);
    let walk = &WALKS[coding.kind + coding.rate];
    let group = &GROUPS[coding.rate];
    Shape {
        rows,
        parity: rows / group.nibbles,
        step: walk.step,
        offset: walk.offset,
        group: group.nibbles,
        lead: group.lead,
        continuous: coding.rate == 1,
    }
}

// The number of coded bits.
pub fn coded_bits(coding: Coding) -> usize
    ensures { result ≡ coded_bits coding.kind coding.rate }
{
    let shape = shape_of(coding);
    (shape.rows + shape.parity) * 4
}

// The number of parity rows.
pub fn parity_rows(coding: Coding) -> usize
    ensures { result ≡ (shape_of coding.kind coding.rate).parity }
{
    shape_of(coding).parity
}
