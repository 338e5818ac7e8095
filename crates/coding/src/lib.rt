// How a block is coded: its kind, its rate and the taps of the two encoders, of those kinds and rates that are defined.
//
// Internal: nothing here is a public entry.
#![tactic(auto)]

ghost use Rattle.std.specs.Prelude.{◌≡◌};
ghost use Rattle.card.specs.Modes.{block_bytes, Defined};

// A kind and a rate that go together, and the taps, of which the low eleven bits count.
#[derive(Clone, Copy)]
pub struct Coding {
    pub kind: usize,
    pub rate: usize,
    pub taps: u16,
    pub ghost defined: { Defined kind rate },
}

impl Coding {
    // The bytes of the block.
    pub fn block_bytes(self) -> usize
        ensures { result ≡ block_bytes self.kind }
    {
        card::block_bytes(self.kind)
    }
}
