// The blocks of a payload, one to four of one kind. Going out each is scrambled and coded by itself, and the coded bits are joined. Coming
// back each is recovered from its own part of the decided bits, and all are given or none. A refusal does not say which block it is of.
//
// Internal: nothing here is a public entry, and callers show what a function requires.
#![tactic(auto)]

ghost use Rattle.std.specs.Prelude.{◌≡◌, ◌*◌, ◌<◌, ◌≤◌, length, get_or};
ghost use Rattle.bits.specs.Lists.{written};
ghost use Rattle.refusal.specs.Report.{answer, done};
ghost use Rattle.card.specs.Modes.{block_bytes};
ghost use Rattle.interleaver_shape.specs.Shapes.{coded_bits};
ghost use Rattle.payload_blocks.specs.Blocks.{block_bit, joined_bit, recovered_all};
ghost use Rattle.payload_blocks.specs.Loops.Parts.{scrambled_byte, descrambled_byte};

use coding::Coding;
use refusal::Refusal;

// The blocks of a payload: how each is coded, and how many there are.
#[derive(Clone, Copy)]
pub struct Blocks {
    pub coding: Coding,
    pub count: usize,
    pub ghost few: { count ≤ 4 },
}

// The coded bits of one block, which is scrambled before, at the start of `out`. Memory is fixed, with no heap: the array has the most that
// a block has. `payload` does the same for its one block, and no entry uses this crate yet.
fn encode_block(coding: Coding, block: &[u8], out: &mut [u8])
    requires { (length block.now ≡ block_bytes coding.kind) × (coded_bits coding.kind coding.rate ≤ length out.old) }
    ensures { out.new ≡ written (coded_bits coding.kind coding.rate) (block_bit coding.kind coding.rate coding.taps block.now) out.old }
{
    let size = block.len();
    let mut scrambled = [0u8; 520];
    scrambler::scramble(block, &mut scrambled);
    fec::encode(coding, &scrambled[..size], out);
}

impl Blocks {
    // The joined coded bits of the blocks, at the start of `out`. Here and below the loop counts blocks: what the parts of `chunks_mut`
    // were given is not known of the whole afterwards.
    pub fn encode(self, payload: &[u8], out: &mut [u8])
        requires { (length payload.now ≡ self.count * block_bytes self.coding.kind) × (self.count * coded_bits self.coding.kind self.coding.rate ≤ length out.old) }
        ensures { out.new ≡ written (self.count * coded_bits self.coding.kind self.coding.rate)
            (joined_bit self.coding.kind self.coding.rate self.coding.taps payload.now) out.old }
    {
        let size = self.coding.block_bytes();
        let bits = interleaver_shape::coded_bits(self.coding);
        for b in 0..self.count {
            let from = b * size;
            let end = from + size;
            let at = b * bits;
            encode_block(self.coding, &payload[from..end], &mut out[at..]);
        }
    }

    // The bytes of every block as it was coded, one after the other at the start of `bytes`, or the refusal of the lowest block that has
    // one.
    fn recover_scrambled(self, decided: &[u8], bytes: &mut [u8]) -> Result<usize, Refusal>
        requires { (length decided.now ≡ self.count * coded_bits self.coding.kind self.coding.rate) × (self.count * block_bytes self.coding.kind ≤ length bytes.old) }
        ensures answer { answer result
            ≡ (recovered_all self.coding.kind self.coding.rate self.coding.taps self.count (λ x. get_or decided.now x 0) bytes.old).report }
        ensures bytes { answer result ≡ done (self.count * block_bytes self.coding.kind) → bytes.new ≡ written (self.count * block_bytes self.coding.kind)
            (scrambled_byte self.coding.kind self.coding.rate (λ x. get_or decided.now x 0)) bytes.old }
    {
        let size = self.coding.block_bytes();
        let bits = interleaver_shape::coded_bits(self.coding);
        for b in 0..self.count {
            let from = b * bits;
            let end = from + bits;
            let at = b * size;
            recovery::recover(self.coding, &decided[from..end], &mut bytes[at..])?;
        }
        Ok(self.count * size)
    }

    // Each of the blocks, descrambled, one after the other at the start of `out`.
    fn descramble(self, bytes: &[u8], out: &mut [u8])
        requires { (length bytes.now ≡ self.count * block_bytes self.coding.kind) × (self.count * block_bytes self.coding.kind ≤ length out.old) }
        ensures { out.new ≡ written (self.count * block_bytes self.coding.kind) (descrambled_byte (block_bytes self.coding.kind) bytes.now) out.old }
    {
        let size = self.coding.block_bytes();
        for b in 0..self.count {
            let at = b * size;
            let end = at + size;
            scrambler::scramble(&bytes[at..end], &mut out[at..]);
        }
    }

    // The payload by way of the blocks' bytes as they were coded, of which there are at most N, and none goes to `out` before all blocks
    // are good.
    fn recover_by<const N: usize>(self, decided: &[u8], out: &mut [u8]) -> Result<usize, Refusal>
        requires decided { (length decided.now ≡ self.count * coded_bits self.coding.kind self.coding.rate) × (self.count * block_bytes self.coding.kind ≤ length out.old) }
        requires room { (self.count * block_bytes self.coding.kind ≤ N) × (N < 65536) }
        ensures answer { answer result
            ≡ (recovered_all self.coding.kind self.coding.rate self.coding.taps self.count (λ x. get_or decided.now x 0) out.old).report }
        ensures payload { out.new
            ≡ (recovered_all self.coding.kind self.coding.rate self.coding.taps self.count (λ x. get_or decided.now x 0) out.old).out }
    {
        let mut bytes = [0u8; N];
        let n = self.recover_scrambled(decided, &mut bytes)?;
        self.descramble(&bytes[..n], out);
        Ok(n)
    }

    // The payload of the decided joined bits, at the start of `out`, or refusal 7 or 8 of the lowest block that has one. One block has a
    // shorter array, since a longer one takes longer to clear.
    pub fn recover(self, decided: &[u8], out: &mut [u8]) -> Result<usize, Refusal>
        requires { (length decided.now ≡ self.count * coded_bits self.coding.kind self.coding.rate) × (self.count * block_bytes self.coding.kind ≤ length out.old) }
        ensures answer { answer result
            ≡ (recovered_all self.coding.kind self.coding.rate self.coding.taps self.count (λ x. get_or decided.now x 0) out.old).report }
        ensures payload { out.new
            ≡ (recovered_all self.coding.kind self.coding.rate self.coding.taps self.count (λ x. get_or decided.now x 0) out.old).out }
    {
        if self.count == 1 {
            self.recover_by::<520>(decided, out)
        } else {
            self.recover_by::<2080>(decided, out)
        }
    }
}
