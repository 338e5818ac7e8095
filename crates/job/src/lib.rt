// A block by the kind of its job card: a frame control for kind 0, a payload block for the others; and the lines of a refusal.
//
// Internal: the programs' own floor over the entries, and nothing here is a public entry. `send` and `read` take anything and refuse
// as the entries do.
#![tactic(auto)]

ghost use Rattle.std.specs.Prelude.{◌≡◌};
ghost use Rattle.refusal.specs.Report.{answer};
ghost use Rattle.card.specs.Gate.{gate};
ghost use Rattle.job.specs.Jobs.{of_frame, send as send_outcome, read as read_outcome, refusal_lines};

use refusal::Refusal;
use text::Text;

// Whether a card goes to frame control: every one that payload does not serve, since one that is no card is refused alike by both.
fn is_of_frame(card: &[u8]) -> bool
    ensures { result ≡ of_frame (gate 1 4 card.now) }
{
    card::served_card(card, 1, 4).is_err()
}

// The items of a word or a block at the start of `out`, or a refusal.
pub fn send(card: &[u8], block: &[u8], out: &mut [u8]) -> Result<usize, Refusal>
    ensures answer { answer result ≡ (send_outcome card.now block.now out.old).report }
    ensures items { out.new ≡ (send_outcome card.now block.now out.old).out }
{
    if is_of_frame(card) {
        return frame_control::send(card, block, out);
    }
    payload::send(card, block, out)
}

// The word or block of received items at the start of `out`, or a refusal.
pub fn read(card: &[u8], items: &[u8], out: &mut [u8]) -> Result<usize, Refusal>
    ensures answer { answer result ≡ (read_outcome card.now items.now out.old).report }
    ensures bytes { out.new ≡ (read_outcome card.now items.now out.old).out }
{
    if is_of_frame(card) {
        return frame_control::read(card, items, out);
    }
    payload::read(card, items, out)
}

// The lines of a refusal: its number, and what comes with it.
pub fn refusal_lines(r: Refusal) -> Text<56>
    ensures { result ≡ refusal_lines r }
{
    let mut value = [0u64; 2];
    let number = refusal::report(Err(r), &mut value);
    let mut text = Text::new();
    text.push_number(b"refused", u64::from(number));
    text.push_number(b"value", value[0]);
    text
}
