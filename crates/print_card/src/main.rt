// Prints the job card on standard input, or `refused` and the number.
//
// It reads past a card's end before the length is judged, so a card that is too long is refused too.
#![tactic(auto)]

use std::io;

fn main(rt: HostRuntime) -> io::Result<()> {
    if !command::called_with(
        &rt,
        &rt.stderr(),
        0,
        b"usage: print_card < CARD\nPrints a job card, or `refused` and the number.\n",
    )? {
        return Ok(());
    }
    let mut input = [0u8; 16];
    let card = command::read_start(&mut rt.stdin(), &mut input);
    // Memory is fixed, with no heap: the array has room for the longest text, and a length comes with it.
    let mut text = [0u8; printed_card::LONGEST];
    let Ok(len) = printed_card::card_text(card, &mut text) else {
        return Ok(());
    };
    command::put_first(&rt, &text, len)
}
