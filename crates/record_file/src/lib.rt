// The file of records that `vectors` runs: reading a record, and writing what came of it.
//
// A record is a label, the call, the card, the input, the room of the output, the expected number, the expected value and the expected
// output. Numbers are big endian. A label stands behind its length, of one byte; a card, an input and an expected output stand behind
// theirs, of four. The room has four bytes, the value eight, the call and the expected number one each. `record_calls` says which number
// is which call.
//
// Internal: nothing here is a public entry. What the system's calls do is assumed, as in every program: of what is read contracts say
// bounds alone, and of what is written nothing (D24). A function that writes answers an error where a write fails.
#![tactic(auto)]

ghost use Rattle.std.specs.Prelude.{◌≡◌, ◌<◌, ◌≤◌, length};
ghost use Rattle.record_file.specs.Counting.{counted, counted_at};
ghost use Rattle.record_file.specs.Reading.{serves, AtMost, Whole};

use record::Record;
use std::io::Read;
use std::{fmt, io};

// A record, and the bytes of its parts.
#[derive(Clone, Copy)]
pub struct Entry<'a> {
    pub head: Record,
    pub label: &'a [u8],
    pub card: &'a [u8],
    pub input: &'a [u8],
    pub expected: &'a [u8],
}

// The file breaks off or cannot be read, has more bytes than there is room for, or has a card that does not serve its call.
#[derive(Clone, Copy, Debug)]
pub struct Broken;

impl From<io::Error> for Broken {
    fn from(_why: io::Error) -> Broken {
        Broken
    }
}

// How many records there were, and how many of them gave something else than they expect.
#[derive(Clone, Copy, Default)]
pub struct Count {
    records: u64,
    mismatches: u64,
}

impl Count {
    // The count after one more record. No count comes near to wrapping.
    fn after(self, agrees: bool) -> Count
        ensures { result ≡ counted agrees self }
    {
        Count {
            records: self.records.wrapping_add(1),
            mismatches: if agrees {
                self.mismatches
            } else {
                self.mismatches.wrapping_add(1)
            },
        }
    }
}

impl fmt::Display for Count {
    fn fmt<W: fmt::Write>(&self, f: &mut fmt::Formatter<W>) -> fmt::Result {
        let records = self.records;
        let mismatches = self.mismatches;
        write!(f, "{records} records, {mismatches} mismatches")
    }
}

// The names of the calls, by their numbers. They stand beside `Counts.calls` and not in it: a name is the same in all counts, and `add`
// promises the list of counts by itself (`counted_at` of specs/Counting).
const CALLS: [&str; 10] = [
    "fc_send",
    "fc_read",
    "payload_send",
    "payload_read",
    "card_read",
    "card_text",
    "map",
    "slice",
    "card_write",
    "card_move",
];

// The counts of each call, and of all.
#[derive(Clone, Copy, Default)]
pub struct Counts {
    calls: [Count; 10],
    all: Count,
}

impl Counts {
    // Counts a record of a call.
    pub fn add(&mut self, call: u64, agrees: bool)
        ensures call { call < 10 → (self.new.calls ≡ counted_at call agrees self.old.calls) × (self.new.all ≡ counted agrees self.old.all) }
        ensures none { 10 ≤ call → self.new ≡ self.old }
    {
        let k = call as usize;
        if k < CALLS.len() {
            self.calls[k] = self.calls[k].after(agrees);
            self.all = self.all.after(agrees);
        }
    }

    // A line for each call, and one for all.
    pub fn print(&self, rt: &impl Print) -> io::Result<()> {
        for (name, count) in CALLS.iter().zip(&self.calls) {
            println!(rt; "{name} {count}")?;
        }
        rt.println(self.all)
    }
}

// Reads a number of `width` bytes.
fn read_number(file: &mut impl Read, width: usize) -> Result<u64, Broken>
    requires { width ≤ 8 }
{
    let mut bytes = [0u8; 8];
    file.read_exact(&mut bytes[8 - width..])?;
    Ok(u64::from_be_bytes(bytes))
}

// Reads as many bytes to the start of `out`. Inlined, as is `read_part`, so that where a record's parts lie is known where they are compared.
#[inline(always)]
fn read_bytes<'a>(file: &mut impl Read, count: u64, out: &'a mut [u8]) -> Result<&'a [u8], Broken>
    ensures { AtMost (length out.old) result }
{
    let n = count as usize;
    if out.len() < n {
        return Err(Broken);
    }
    let part = &mut out[..n];
    file.read_exact(part)?;
    Ok(part)
}

// Reads a length of four bytes, and as many bytes.
#[inline(always)]
fn read_part<'a>(file: &mut impl Read, out: &'a mut [u8]) -> Result<&'a [u8], Broken>
    ensures { AtMost (length out.old) result }
{
    let count = read_number(file, 4)?;
    read_bytes(file, count, out)
}

// Whether a card has the length that its call has. Calls are numbers and no enum: `serves` of specs/Reading answers for every number, and
// one that no call has is served by no card.
fn card_serves(call: u64, count: usize) -> bool
    ensures { result ≡ serves call count }
{
    match call {
        6 => count == 1,
        7 => count == 18,
        8 => count == 80,
        9 => true,
        _ => call < 6,
    }
}

// Reads the next record, and the bytes of its label, card, input and expected output to the memory lent. There is none at the end of the
// file.
pub fn read_record<'a>(
    file: &mut impl Read,
    label: &'a mut [u8],
    card: &'a mut [u8],
    input: &'a mut [u8],
    expected: &'a mut [u8],
) -> Result<Option<Entry<'a>>, Broken>
    ensures { Whole (length label.old) (length card.old) (length input.old) (length expected.old) result }
{
    let Ok(count) = read_number(file, 1) else {
        return Ok(None);
    };
    let label = read_bytes(file, count, label)?;
    let call = read_number(file, 1)?;
    let card = read_part(file, card)?;
    if !card_serves(call, card.len()) {
        return Err(Broken);
    }
    let input = read_part(file, input)?;
    let room = read_number(file, 4)?;
    let number = read_number(file, 1)?;
    let value = read_number(file, 8)?;
    let expected = read_part(file, expected)?;
    Ok(Some(Entry {
        head: Record {
            call,
            room,
            number,
            value,
        },
        label,
        card,
        input,
        expected,
    }))
}
