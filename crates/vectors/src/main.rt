// Makes the calls that the file `entries.bin` records, and compares what each gives with what the file expects: the number, what
// comes with it, and every element of the lent output, also those that the call must leave as they were.
// `record_file` says what a record is.
//
// A record with a label is one of the cases that paper 01 wants run by a program: its line is the label, and the number and the value
// that the call gave. Then there are the records and mismatches of each call and in all. A file that breaks off or has an unknown call
// is read up to that record. Further lines number the records that differ, and one that could not be read, from 0 on.
#![tactic(auto)]

use record_file::{Broken, Counts, Entry};
use std::io::Read;
use std::{fs, io};

// No more records are read from a file.
const MOST_RECORDS: u64 = 1000000;

// Makes the call of record k, and counts and prints what came of it.
fn judge(rt: &impl Print, k: u64, entry: Entry<'_>, counts: &mut Counts) -> io::Result<()> {
    let given = record_calls::run(entry.head, entry.card, entry.input, entry.expected);
    counts.add(entry.head.call, given.agrees);
    if !entry.label.is_empty() {
        rt.write_all(entry.label)?;
        println!(rt; ": {} {}", given.number, given.value)?;
    }
    if !given.agrees {
        println!(rt; "differs: record {k}")?;
    }
    Ok(())
}

// Runs the records of a file. An input or an expected output has as many bytes as an output at most.
fn run(rt: &impl Print, file: &mut impl Read, counts: &mut Counts) -> io::Result<()> {
    let mut label = [0u8; 80];
    let mut card = [0u8; 80];
    let mut input = [0u8; record::MOST_BYTES];
    let mut expected = [0u8; record::MOST_BYTES];
    for k in 0..MOST_RECORDS {
        match record_file::read_record(file, &mut label, &mut card, &mut input, &mut expected) {
            Ok(Some(entry)) => judge(rt, k, entry, counts)?,
            Ok(None) => return Ok(()),
            Err(Broken) => return println!(rt; "broken: record {k}"),
        }
    }
    println!(rt; "not read: record {MOST_RECORDS}")
}

fn main(rt: HostRuntime) -> io::Result<()> {
    let path = "entries.bin";
    match fs::open(&rt, path) {
        Ok(mut file) => {
            let mut counts = Counts::default();
            run(&rt, &mut file, &mut counts)?;
            counts.print(&rt)
        }
        Err(why) => output::put_failure(&rt.stderr(), path.as_bytes(), why),
    }
}
