// The printed card (D11): a line for each field of a job card but spare, and the counts only in version 2, or `refused` and the number.
//
// Public entry: `card_text`, whose text has at most `LONGEST` bytes. Everything else is internal.
#![tactic(auto)]

ghost use Rattle.std.specs.Prelude.{◌≡◌};
ghost use Rattle.refusal.specs.Report.{answer, refusal};
ghost use Rattle.text.specs.Text.{binary};
ghost use Rattle.printed_card.specs.Text.{card_lines, text_of, card_text, text_card};
ghost use Rattle.printed_card.specs.Short.{Short};

use card::Card;
use refusal::Refusal;
use std::array;
use text::Text;

// No text is longer (`text-short` of proofs/).
pub const LONGEST: usize = 108;

// The taps as eleven binary digits. Made here, as in `Text::push_decimal`: no clause says when a `write!` succeeds.
fn tap_digits(taps: u64) -> [u8; 11]
    ensures { result ≡ binary 11 taps }
{
    array::from_fn(|i| b'0' + ((taps >> (10 - i)) % 2) as u8)
}

// The lines of a card.
fn card_lines(c: Card) -> Text<LONGEST>
    requires { Short c }
    ensures { result ≡ card_lines c }
{
    let mut text = Text::new();
    text.push_number(b"version", c.version);
    text.push_number(b"band", c.band);
    text.push_number(b"kind", c.kind);
    text.push_number(b"rate", c.rate);
    text.push_number(b"modulation", c.modulation);
    text.push_line(b"taps", &tap_digits(c.taps));
    // Named, since the proof cites the test by its name, and the edit `counts_on_version_1` changes what is tested.
    let counted = c.version == 2;
    if counted {
        text.push_number(b"blocks", c.blocks);
        text.push_number(b"copies", c.copies);
    }
    text.push_number(b"serial", c.serial);
    text
}

// The line of a refused card.
fn refused_line(r: Refusal) -> Text<LONGEST>
    ensures { result ≡ text_of (refusal r) }
{
    let mut text = Text::new();
    text.push_number(b"refused", u64::from(r.number()));
    text
}

// The text of some bytes as a card.
fn text_of(card: &[u8]) -> Text<LONGEST>
    ensures { result ≡ card_text card.now }
{
    match card::read_card(card) {
        Ok(c) => card_lines(c),
        Err(r) => refused_line(r),
    }
}

// The text of some bytes as a card at the start of `out`, or refusal 5 with the needed length.
pub fn card_text(card: &[u8], out: &mut [u8]) -> Result<usize, Refusal>
    ensures answer { answer result ≡ (text_card card.now out.old).report }
    ensures bytes { out.new ≡ (text_card card.now out.old).out }
{
    let text = text_of(card);
    let bytes = text.as_bytes();
    let len = bytes.len();
    if out.len() < len {
        return Err(Refusal::Room(len));
    }
    bits::put(bytes, out);
    Ok(len)
}
