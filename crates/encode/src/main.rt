// Writes the items of a word or a block, a byte an item: `encode CARD BLOCK`, both names of files. A refusal is written as two lines,
// its number and what comes with it.
#![tactic(auto)]

use std::io;

// The items of some bytes under a card, at most 101,920 (D27): memory is fixed, with no heap.
fn encode(rt: &impl Print, card: &[u8], block: &[u8]) -> io::Result<()> {
    let mut items = [0u8; 101920];
    match job::send(card, block, &mut items) {
        Ok(n) => command::put_first(rt, &items, n),
        Err(r) => {
            command::put_refusal(rt, r)?;
            Ok(())
        }
    }
}

const USAGE: &[u8] =
    b"usage: encode CARD BLOCK > ITEMS\nWrites the items of a word or a block, a byte each, by the card's kind.\n";

fn main(rt: HostRuntime) -> io::Result<()> {
    command::with_files(
        &rt,
        &rt.stderr(),
        USAGE,
        |card, block| encode(&rt, card, block),
    )
}
