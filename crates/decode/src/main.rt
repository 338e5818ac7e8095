// Writes the word or the block of received items as a line of hex: `decode CARD ITEMS`, both names of files, an item a byte. A refusal
// is written as two lines, its number and what comes with it.
#![tactic(auto)]

ghost use Rattle.std.specs.Prelude.{◌≤◌, length};

use std::io;

// Some bytes, of the most that a block has, as a line of hex.
fn put_hex(rt: &impl Print, bytes: &[u8]) -> io::Result<()>
    requires { length bytes.now ≤ 520 }
{
    let mut digits = [0u8; 1040];
    text::hex(bytes, &mut digits);
    rt.write_all(&digits[..2 * bytes.len()])?;
    println!(rt)
}

// The bytes of some items under a card, in an array of the most that a block has: memory is fixed, with no heap.
fn decode(rt: &impl Print, card: &[u8], items: &[u8]) -> io::Result<()> {
    let mut bytes = [0u8; 520];
    match job::read(card, items, &mut bytes) {
        Ok(n) => put_hex(rt, bytes.get(..n).unwrap_or(&[])),
        Err(r) => {
            command::put_refusal(rt, r)?;
            Ok(())
        }
    }
}

const USAGE: &[u8] =
    b"usage: decode CARD ITEMS\nWrites the word or the block that some items decide, a byte each, as a line of hex.\n";

fn main(rt: HostRuntime) -> io::Result<()> {
    command::with_files(
        &rt,
        &rt.stderr(),
        USAGE,
        |card, items| decode(&rt, card, items),
    )
}
