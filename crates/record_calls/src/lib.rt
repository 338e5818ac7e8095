// The calls of the records that `vectors` runs: each is made on an untouched output, and compared with what its record expects.
//
// The call is 0 fc_send, 1 fc_read, 2 payload_send, 3 payload_read, 4 card_read, 5 card_text, 6 map, 7 slice, 8 card_write or 9
// card_move. In a map's record the card is the modulation; in a slice's it is the modulation, whether the carrier was heard, and the bits
// of both coordinates; in a card_write's it is the ten fields, eight bytes each. In a card_move's the input is the version asked for, in
// eight bytes.
//
// Internal: nothing here is a public entry.
#![tactic(auto)]

ghost use Rattle.std.specs.Prelude.{◌≡◌, ◌≤◌, List, ℕ, Result, length};
ghost use Rattle.std.specs.Fn.{FnOnceReturnsAtMut};
ghost use Rattle.refusal.specs.declared.Refusal.{Refusal};
ghost use Rattle.refusal.specs.Report.{answer};
ghost use Rattle.record.specs.Expected.{holds, compared};
ghost use Rattle.record_calls.specs.Calls.{card_in, slice_of, bytes_outcome, room, given};

use card::Card;
use record::{Element, Given, Record};
use refusal::Refusal;

// The card whose fields are some words. Each field stands with the place of its word, as in `card_in` of specs/Calls: ten words in an array
// would have to be given their names all the same.
#[tactic(auto, unfolding(crate::specs::Calls::card_in))]
fn card_in(words: &[u8]) -> Card
    ensures { result ≡ card_in words.now }
{
    Card {
        version: record::word_at(words, 0),
        band: record::word_at(words, 8),
        kind: record::word_at(words, 16),
        rate: record::word_at(words, 24),
        modulation: record::word_at(words, 32),
        taps: record::word_at(words, 40),
        spare: record::word_at(words, 48),
        serial: record::word_at(words, 56),
        blocks: record::word_at(words, 64),
        copies: record::word_at(words, 72),
    }
}

// Slices as a record has it.
#[tactic(auto, unfolding(crate::specs::Calls::slice_of))]
fn slice(card: &[u8], out: &mut [u8]) -> Result<usize, Refusal>
    ensures answer { answer result ≡ (slice_of card.now out.old).report }
    ensures out { out.new ≡ (slice_of card.now out.old).out }
{
    let i = record::float_of(record::word_at(card, 2));
    let q = record::float_of(record::word_at(card, 10));
    let modulation = u64::from(record::byte_at(card, 0));
    let heard = u64::from(record::byte_at(card, 1));
    slicing::slice_into(modulation, heard, i, q, out)
}

// A call whose output is bytes. Calls are numbers and no enum: `run` answers for every number, as `given` of specs/Calls has it, and a
// number that no call has is a slice there.
#[tactic(auto, unfolding(crate::specs::Calls::bytes_outcome))]
fn call(call: u64, card: &[u8], input: &[u8], out: &mut [u8]) -> Result<usize, Refusal>
    ensures answer { answer result ≡ (bytes_outcome call card.now input.now out.old).report }
    ensures out { out.new ≡ (bytes_outcome call card.now input.now out.old).out }
{
    match call {
        0 => frame_control::send(card, input, out),
        1 => frame_control::read(card, input, out),
        2 => payload::send(card, input, out),
        3 => payload::read(card, input, out),
        5 => printed_card::card_text(card, out),
        8 => written_card::write_card(card_in(card), out),
        9 => written_card::move_card(card, record::word_at(input, 0), out),
        _ => slice(card, out),
    }
}

// The room of a record, at most that of an untouched output.
fn room_of(r: Record, most: usize) -> usize
    ensures { (result ≡ room most r) × (result ≤ most) }
{
    (r.room as usize).min(most)
}

// What a call gives on an output.
fn given_by<T: Element, F: FnOnce(&mut [T]) -> Result<usize, Refusal>>(
    r: Record,
    expected: &[u8],
    out: &mut [T],
    call: F,
) -> Given
    requires { F.IsAlwaysCallable call }
    ensures { (a : Result ℕ Refusal) × (made : List T) × FnOnceReturnsAtMut F.FnOnce call out.old a made
        × (result ≡ compared r (answer a) (holds (length made) (T.count (length expected.now)) (T.same made expected.now))) }
{
    let answer = call(out);
    record::compared(answer, r, record::holds(out, expected))
}

// What a record's call gives on an untouched output. The parts of a record are lent one by one, since `Entry`, which holds them all, is of
// `record_file`, a crate beside this one.
pub fn run(r: Record, card: &[u8], input: &[u8], expected: &[u8]) -> Given
    ensures { result ≡ given r card.now input.now expected.now }
{
    let room = room_of(r, record::MOST_WORDS);
    match r.call {
        4 => {
            let mut out: [u64; record::MOST_WORDS] = record::untouched();
            given_by(
                r,
                expected,
                &mut out[..room],
                |out| card::read_fields(card, out),
            )
        }
        6 => {
            let mut out: [f64; record::MOST_WORDS] = record::untouched();
            let modulation = u64::from(record::byte_at(card, 0));
            given_by(
                r,
                expected,
                &mut out[..room],
                |out| constellation::map_into(modulation, input, out),
            )
        }
        _ => {
            let mut out: [u8; record::MOST_BYTES] = record::untouched();
            let room = room_of(r, record::MOST_BYTES);
            given_by(
                r,
                expected,
                &mut out[..room],
                |out| call(r.call, card, input, out),
            )
        }
    }
}
