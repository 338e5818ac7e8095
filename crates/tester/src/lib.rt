// The C interface: every public entry as a function of include/hplc.h.
//
// A call returns the number of paper 01's table and always stores what comes with it behind `value`: the answer's second half, and no
// lent buffer. Each promise goes through the same outcome definition as the entry below it.
#![tactic(auto)]

ghost use Rattle.std.specs.Prelude.{◌≡◌};
ghost use Rattle.constellation.specs.Entries.{map_outcome};
ghost use Rattle.slicing.specs.Entries.{received_of, slice_outcome};
ghost use Rattle.bands.specs.Units.{place_of, sub_carrier_of};
ghost use Rattle.card.specs.Entries.{read_fields};
ghost use Rattle.written_card.specs.Entries.{write_card, move_card};
ghost use Rattle.printed_card.specs.Text.{text_card};
ghost use Rattle.frame_control.specs.Entries.{send as frame_send, read as frame_read};
ghost use Rattle.payload.specs.Entries.{send as payload_send, read as payload_read};
ghost use Rattle.tester.specs.Call.{Reported, Returned, interface_version};

use bands::{Place, SubCarrier};
use card::Card;

// The version of this interface.
const VERSION: u32 = 30100;

#[unsafe(no_mangle)]
pub extern "C" fn hplc_version() -> u32
    ensures { result ≡ interface_version }
{
    VERSION
}

// The fields of a card: version, band, kind, rate, modulation, taps, spare, serial, blocks, copies.
#[unsafe(no_mangle)]
pub extern "C" fn hplc_card_read(card: &[u8], fields: &mut [u64], value: &mut [u64; 2]) -> u32
    ensures { Returned (read_fields card.now fields.old) result value.new fields.new }
{
    let answer = card::read_fields(card, fields);
    refusal::report(answer, value)
}

// A card from its fields.
#[unsafe(no_mangle)]
pub extern "C" fn hplc_card_write(
    version: u64,
    band: u64,
    kind: u64,
    rate: u64,
    modulation: u64,
    taps: u64,
    spare: u64,
    serial: u64,
    blocks: u64,
    copies: u64,
    out: &mut [u8],
    value: &mut [u64; 2],
) -> u32
    ensures { Returned (write_card (record { version = version; band = band; kind = kind; rate = rate; modulation = modulation; taps = taps; spare = spare; serial = serial; blocks = blocks; copies = copies }) out.old) result value.new out.new }
{
    let c = Card {
        version,
        band,
        kind,
        rate,
        modulation,
        taps,
        spare,
        serial,
        blocks,
        copies,
    };
    let answer = written_card::write_card(c, out);
    refusal::report(answer, value)
}

// A card in the version asked for.
#[unsafe(no_mangle)]
pub extern "C" fn hplc_card_move(
    card: &[u8],
    version: u64,
    out: &mut [u8],
    value: &mut [u64; 2],
) -> u32
    ensures { Returned (move_card card.now version out.old) result value.new out.new }
{
    let answer = written_card::move_card(card, version, out);
    refusal::report(answer, value)
}

// The printed card.
#[unsafe(no_mangle)]
pub extern "C" fn hplc_card_text(card: &[u8], out: &mut [u8], value: &mut [u64; 2]) -> u32
    ensures { Returned (text_card card.now out.old) result value.new out.new }
{
    let answer = printed_card::card_text(card, out);
    refusal::report(answer, value)
}

// The constellation point of some bits.
#[unsafe(no_mangle)]
pub extern "C" fn hplc_map(
    modulation: u64,
    bits: &[u8],
    point: &mut [f64],
    value: &mut [u64; 2],
) -> u32
    ensures { Returned (map_outcome modulation bits.now point.old) result value.new point.new }
{
    let answer = constellation::map_into(modulation, bits, point);
    refusal::report(answer, value)
}

// The items that a received carrier gives.
#[unsafe(no_mangle)]
pub extern "C" fn hplc_slice(
    modulation: u64,
    heard: u64,
    i: f64,
    q: f64,
    items: &mut [u8],
    value: &mut [u64; 2],
) -> u32
    ensures { Returned (slice_outcome modulation (received_of heard i q) items.old) result value.new items.new }
{
    let answer = slicing::slice_into(modulation, heard, i, q, items);
    refusal::report(answer, value)
}

// The place of a sub-carrier in a band.
#[unsafe(no_mangle)]
pub extern "C" fn hplc_place_of_sub_carrier(
    band: u64,
    sub_carrier: u64,
    value: &mut [u64; 2],
) -> u32
    ensures { Reported (place_of band sub_carrier) result value.new }
{
    let place = bands::place_of(band as usize, SubCarrier(sub_carrier as usize));
    refusal::report(place.map(|p| p.0), value)
}

// The sub-carrier at a place of a band.
#[unsafe(no_mangle)]
pub extern "C" fn hplc_sub_carrier_of_place(band: u64, place: u64, value: &mut [u64; 2]) -> u32
    ensures { Reported (sub_carrier_of band place) result value.new }
{
    let sub_carrier = bands::sub_carrier_of(band as usize, Place(place as usize));
    refusal::report(sub_carrier.map(|s| s.0), value)
}

// The items of a frame control.
#[unsafe(no_mangle)]
pub extern "C" fn hplc_fc_send(
    card: &[u8],
    word: &[u8],
    out: &mut [u8],
    value: &mut [u64; 2],
) -> u32
    ensures { Returned (frame_send card.now word.now out.old) result value.new out.new }
{
    let answer = frame_control::send(card, word, out);
    refusal::report(answer, value)
}

// The word of a frame control.
#[unsafe(no_mangle)]
pub extern "C" fn hplc_fc_read(
    card: &[u8],
    items: &[u8],
    out: &mut [u8],
    value: &mut [u64; 2],
) -> u32
    ensures { Returned (frame_read card.now items.now out.old) result value.new out.new }
{
    let answer = frame_control::read(card, items, out);
    refusal::report(answer, value)
}

// The items of a payload block.
#[unsafe(no_mangle)]
pub extern "C" fn hplc_payload_send(
    card: &[u8],
    block: &[u8],
    out: &mut [u8],
    value: &mut [u64; 2],
) -> u32
    ensures { Returned (payload_send card.now block.now out.old) result value.new out.new }
{
    let answer = payload::send(card, block, out);
    refusal::report(answer, value)
}

// The block of a payload.
#[unsafe(no_mangle)]
pub extern "C" fn hplc_payload_read(
    card: &[u8],
    items: &[u8],
    out: &mut [u8],
    value: &mut [u64; 2],
) -> u32
    ensures { Returned (payload_read card.now items.now out.old) result value.new out.new }
{
    let answer = payload::read(card, items, out);
    refusal::report(answer, value)
}
