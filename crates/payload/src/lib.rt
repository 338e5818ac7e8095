// One payload block of 72, 136, 264 or 520 bytes, copied as often as its card says: from its bytes to items on carriers, and from received
// items back to its bytes.
//
// Public entries: `send` and `read`. Nothing else is `pub`.
#![tactic(auto)]

ghost use Rattle.std.specs.Prelude.{◌≡◌, ◌≤◌, length};
ghost use Rattle.bits.specs.Lists.{written};
ghost use Rattle.refusal.specs.Report.{answer};
ghost use Rattle.card.specs.Modes.{block_bytes};
ghost use Rattle.card.specs.Gate.{Served};
ghost use Rattle.payload_layout.specs.Layouts.{items as items_of};
ghost use Rattle.payload.specs.Loops.Blocks.{LaidBlock};
ghost use Rattle.payload.specs.Entries.{block_layout, sent_item, send_by, send as send_outcome, decided_bit, decided_block, read_by, read as read_outcome};

use card::Card;
use coding::Coding;
use payload_layout::Layout;
use refusal::Refusal;

// What a card says of its block: how it is coded, and the layout of its coded bits in as many copies as the card says.
#[derive(Clone, Copy)]
struct Plan {
    coding: Coding,
    layout: Layout,
}

impl Plan {
    // The plan of a card. No `From`: only a card that is served has one, which a contract can ask and a `From` can't. Inlined, since a card
    // that is put into memory for a call takes half as long again to a refusal by 4.
    #[inline(always)]
    fn of(c: &Card) -> Plan
        requires { Served 1 4 c.now }
        ensures layout { result.layout ≡ block_layout c.now }
        ensures coding { (result.coding.kind ≡ c.now.kind) × (result.coding.rate ≡ c.now.rate) × (result.coding.taps ≡ c.now.taps) }
    {
        let coding = Coding {
            kind: c.kind as usize,
            rate: c.rate as usize,
            taps: c.taps as u16,
        };
        let layout = payload_layout::layout_of(
            c.band as usize,
            c.modulation as usize,
            c.copies as usize,
            interleaver_shape::coded_bits(coding),
        );
        Plan { coding, layout }
    }

    // The items of a block at the start of `out`: scrambled, coded and laid out. `encode_block` of `payload_blocks` scrambles and codes
    // alike; that crate does so for several blocks, and no entry uses it yet. The arrays have the most that a block has: memory is fixed,
    // with no heap.
    fn send_items(&self, block: &[u8], out: &mut [u8])
        requires { (LaidBlock self.now.layout self.now.coding.kind self.now.coding.rate) × (length block.now ≡ block_bytes self.now.coding.kind)
            × (items_of self.now.layout ≤ length out.old) }
        ensures { out.new ≡ written (items_of self.now.layout)
            (sent_item self.now.layout self.now.coding.kind self.now.coding.rate self.now.coding.taps block.now) out.old }
    {
        let size = block.len();
        let count = self.layout.coded;
        let mut scrambled = [0u8; 520];
        let mut coded = [0u8; 8320];
        scrambler::scramble(block, &mut scrambled);
        fec::encode(self.coding, &scrambled[..size], &mut coded);
        payload_copying::lay_out(self.layout, &coded[..count], out);
    }

    // The block of legal items at the start of `out`, or refusal 7 or 8: decided, decoded and descrambled. Its arrays have
    // the most that a block has, too.
    fn read_items(&self, items: &[u8], out: &mut [u8]) -> Result<usize, Refusal>
        requires { (LaidBlock self.now.layout self.now.coding.kind self.now.coding.rate) × (length items.now ≡ items_of self.now.layout)
            × (block_bytes self.now.coding.kind ≤ length out.old) }
        ensures answer { answer result
            ≡ (decided_block self.now.coding.kind self.now.coding.rate self.now.coding.taps (decided_bit self.now.layout items.now) out.old).report }
        ensures bytes { out.new
            ≡ (decided_block self.now.coding.kind self.now.coding.rate self.now.coding.taps (decided_bit self.now.layout items.now) out.old).out }
    {
        let mut decided = [0u8; 8320];
        payload_combining::decide(self.layout, items, &mut decided);
        let count = self.layout.coded;
        let mut block = [0u8; 520];
        // no `?`: the refusal has an arm of its own, in which the edit `count_of_one` names another
        match recovery::recover(self.coding, &decided[..count], &mut block) {
            Ok(size) => {
                scrambler::scramble(&block[..size], out);
                Ok(size)
            }
            Err(r) => Err(r),
        }
    }
}

// ---- sending

// Sending behind the card's checks: refusal 4 or 5, or the items. The card is handed on, here and in `read_by`, and not its plan: `send_by`
// and `read_by` of specs/Entries say what comes out by the card.
fn send_by(c: &Card, block: &[u8], out: &mut [u8]) -> Result<usize, Refusal>
    requires { Served 1 4 c.now }
    ensures answer { answer result ≡ (send_by c.now block.now out.old).report }
    ensures items { out.new ≡ (send_by c.now block.now out.old).out }
{
    let plan = Plan::of(c);
    let size = plan.coding.block_bytes();
    let needed = payload_layout::item_count(plan.layout);
    if block.len() != size {
        return Err(Refusal::Length(block.len()));
    }
    if out.len() < needed {
        return Err(Refusal::Room(needed));
    }
    plan.send_items(block, out);
    Ok(needed)
}

// The items of a block at the start of `out`, or refusal 1, 2, 10, 3, 4 or 5.
pub fn send(card: &[u8], block: &[u8], out: &mut [u8]) -> Result<usize, Refusal>
    ensures answer { answer result ≡ (send_outcome card.now block.now out.old).report }
    ensures items { out.new ≡ (send_outcome card.now block.now out.old).out }
{
    let c = card::served_card(card, 1, 4)?;
    send_by(&c, block, out)
}

// ---- reading

// Reading behind the card's checks: refusal 4, 5, 6, 7 or 8, or the block.
fn read_by(c: &Card, items: &[u8], out: &mut [u8]) -> Result<usize, Refusal>
    requires { Served 1 4 c.now }
    ensures answer { answer result ≡ (read_by c.now items.now out.old).report }
    ensures bytes { out.new ≡ (read_by c.now items.now out.old).out }
{
    let plan = Plan::of(c);
    if items.len() != payload_layout::item_count(plan.layout) {
        return Err(Refusal::Length(items.len()));
    }
    let size = plan.coding.block_bytes();
    if out.len() < size {
        return Err(Refusal::Room(size));
    }
    if let Some(illegal) = bits::first_above(items, 2) {
        return Err(Refusal::Item(illegal));
    }
    plan.read_items(items, out)
}

// The block of received items at the start of `out`, or refusal 1, 2, 10 or 3 to 8.
pub fn read(card: &[u8], items: &[u8], out: &mut [u8]) -> Result<usize, Refusal>
    ensures answer { answer result ≡ (read_outcome card.now items.now out.old).report }
    ensures bytes { out.new ≡ (read_outcome card.now items.now out.old).out }
{
    let c = card::served_card(card, 1, 4)?;
    read_by(&c, items, out)
}
