// Frame control: sixteen bytes to the items on the carriers of all its symbols, and back.
//
// Sending encodes the word, shuffles the coded bits and puts a copy of one on each lane; reading decides each coded bit by strict
// majority of its copies, undoes the shuffle and compares the parity. Frame control is not scrambled.
//
// Public entries: `send` and `read`. Refusals are those of paper 01's table, in its order; a refusal keeps `out`.
#![tactic(auto)]

ghost use Rattle.std.specs.Prelude.{◌≡◌, ◌<◌, length};
ghost use Rattle.bands.specs.Bands.{carriers, offsets};
ghost use Rattle.refusal.specs.Report.{answer};
ghost use Rattle.card.specs.Gate.{Served};
ghost use Rattle.frame_control.specs.Entries.{send_by, send as send_outcome, read_by, read as read_outcome};

use bands::Band;
use card::Card;
use coding::Coding;
use diversity::Symbols;
use refusal::Refusal;

// The symbols of a card's band. No `From`: only a card that is served has them, which a contract can ask and a `From` can't.
fn symbols_of(c: &Card) -> Symbols<'static>
    requires { Served 0 0 c.now }
    ensures same { (result.carriers ≡ carriers c.now.band) × (result.offsets.now ≡ offsets c.now.band) }
    ensures few { length result.offsets.now < 32 }
{
    Symbols::on(Band {
        number: c.band as usize,
    })
}

// The items of a word on some symbols.
fn send_by(symbols: &Symbols, taps: u16, word: &[u8], out: &mut [u8]) -> Result<usize, Refusal>
    ensures answer { answer result ≡ (send_by symbols.now.carriers symbols.now.offsets.now taps word.now out.old).report }
    ensures items { out.new ≡ (send_by symbols.now.carriers symbols.now.offsets.now taps word.now out.old).out }
{
    if word.len() != 16 {
        return Err(Refusal::Length(word.len()));
    }
    let needed = symbols.item_count();
    if out.len() < needed {
        return Err(Refusal::Room(needed));
    }
    let coding = Coding {
        kind: 0,
        rate: 0,
        taps,
    };
    let mut coded = [0u8; 256];
    fec::encode(coding, word, &mut coded);
    symbols.copy_items(&coded, out);
    Ok(needed)
}

// Sends a word: its items at the start of `out`, or refusal 1, 2, 10, 3, 4 or 5.
pub fn send(card: &[u8], word: &[u8], out: &mut [u8]) -> Result<usize, Refusal>
    ensures answer { answer result ≡ (send_outcome card.now word.now out.old).report }
    ensures items { out.new ≡ (send_outcome card.now word.now out.old).out }
{
    let c = card::served_card(card, 0, 0)?;
    send_by(&symbols_of(&c), c.taps as u16, word, out)
}

// The word that the items on some symbols decide.
fn read_by(symbols: &Symbols, taps: u16, items: &[u8], out: &mut [u8]) -> Result<usize, Refusal>
    requires { length symbols.now.offsets.now < 32 }
    ensures answer { answer result ≡ (read_by symbols.now.carriers symbols.now.offsets.now taps items.now out.old).report }
    ensures word { out.new ≡ (read_by symbols.now.carriers symbols.now.offsets.now taps items.now out.old).out }
{
    if items.len() != symbols.item_count() {
        return Err(Refusal::Length(items.len()));
    }
    if out.len() < 16 {
        return Err(Refusal::Room(16));
    }
    if let Some(bad) = bits::first_above(items, 2) {
        return Err(Refusal::Item(bad));
    }
    let decided = combining::decide(symbols, items);
    let coding = Coding {
        kind: 0,
        rate: 0,
        taps,
    };
    recovery::recover(coding, &decided, out)
}

// Reads a word: its bytes at the start of `out`, or refusal 1, 2, 10 or 3 to 8.
pub fn read(card: &[u8], items: &[u8], out: &mut [u8]) -> Result<usize, Refusal>
    ensures answer { answer result ≡ (read_outcome card.now items.now out.old).report }
    ensures word { out.new ≡ (read_outcome card.now items.now out.old).out }
{
    let c = card::served_card(card, 0, 0)?;
    read_by(&symbols_of(&c), c.taps as u16, items, out)
}
