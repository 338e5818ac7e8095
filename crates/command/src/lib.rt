// What the programs share: how they are called, files that arguments name, and refusals on standard output.
//
// Internal: nothing here is a public entry. What the system's calls do is assumed, as in every program, and no contract can say what is
// read or written (D24). `rt` stands for the system and prints on standard output; `errors` prints on standard error. They are two
// parameters, since no trait that `rt` has says `stderr`: only `HostRuntime` does, which each `main` holds.
#![tactic(auto)]

ghost use Rattle.std.specs.Prelude.{◌≡◌, ◌≤◌, length, IfOk};
ghost use Rattle.job.specs.Jobs.{refusal_lines};

use refusal::Refusal;
use std::env::FillError;
use std::io::Read;
use std::rt::{Env, Files};
use std::{fs, io, str};

// Of a file the first 131,072 bytes are read, which is more than any entry takes (D19).
pub const FILE_ROOM: usize = 131072;

// The first n of some bytes on standard output, or none where there are fewer. An entry answers how many elements it wrote, as
// include/hplc.h has it, so the length stands beside the bytes.
pub fn put_first(rt: &impl Print, bytes: &[u8], n: usize) -> io::Result<()> {
    rt.write_all(bytes.get(..n).unwrap_or(&[]))
}

// Argument i, at the start of `word`; it is empty where it is missing or there is no room for it. Argument 0 is the program's name. No
// Option, since nobody asks which it was: an empty name opens no file, and a file that is missing counts as empty (D19).
fn argument<'a>(rt: &impl Env, i: usize, word: &'a mut [u8]) -> &'a [u8]
    ensures { length result.now ≤ length word.old }
{
    let n = rt.arg(i, word).unwrap_or(0);
    &word[..n]
}

// Whether there is an argument i.
fn is_given(rt: &impl Env, i: usize) -> bool {
    !matches!(rt.arg(i, &mut []), Err(FillError::NotPresent))
}

// Whether the first argument asks how to call the program.
fn asks_help(rt: &impl Env) -> bool {
    let mut word = [0u8; 4096];
    matches!(argument(rt, 1, &mut word), b"-h" | b"--help")
}

// Whether the program was called with so many arguments. Where it was not, `usage` is written: on standard output if that was asked
// for by `-h` or `--help`, and on standard error otherwise.
pub fn called_with(
    rt: &(impl Env + Print),
    errors: &impl Print,
    arguments: usize,
    usage: &[u8],
) -> io::Result<bool> {
    if asks_help(rt) {
        rt.write_all(usage)?;
        return Ok(false);
    }
    if !is_given(rt, arguments) || is_given(rt, arguments.saturating_add(1)) {
        errors.write_all(usage)?;
        return Ok(false);
    }
    Ok(true)
}

// Reads until `buf` is full, the input ends or a read fails, and answers what was read.
pub fn read_start<'a>(from: &mut impl Read, buf: &'a mut [u8]) -> &'a [u8]
    ensures { length result.now ≤ length buf.old }
{
    // No index is counted here: each read says how much it gave.
    let mut done = 0;
    while done < buf.len() {
        match from.read(&mut buf[done..]) {
            Ok(n) if 0 < n => done += n,
            _ => break,
        }
    }
    &buf[..done]
}

// The file of a name. A name that is no UTF-8 text opens none.
fn open<R: Files>(rt: &R, name: &[u8]) -> io::Result<R::File> {
    match str::from_utf8(name) {
        Ok(path) => fs::open(rt, path),
        Err(_) => Err(io::Error::from(io::ErrorKind::InvalidFilename)),
    }
}

// The start of the file that argument i names, read to `buf`. A file that is missing or cannot be opened counts as empty, and standard
// error says why; where that cannot be written either, it is left out.
pub fn read_file<'a, R: Env + Files>(
    rt: &R,
    errors: &impl Print,
    i: usize,
    buf: &'a mut [u8],
) -> &'a [u8]
    ensures { length result.now ≤ length buf.old }
{
    let mut path = [0u8; 4096];
    let name = argument(rt, i, &mut path);
    match open(rt, name) {
        Ok(mut file) => read_start(&mut file, buf),
        Err(why) => {
            let _ = output::put_failure(errors, name, why);
            &[]
        }
    }
}

// Runs a program that was called with the names of two files: `run` takes their bytes.
pub fn with_files<R: Env + Files + Print, F: FnOnce(&[u8], &[u8]) -> io::Result<()>>(
    rt: &R,
    errors: &impl Print,
    usage: &[u8],
    run: F,
) -> io::Result<()>
    requires { F.IsAlwaysCallable run }
{
    if !called_with(rt, errors, 2, usage)? {
        return Ok(());
    }
    let mut first = [0u8; FILE_ROOM];
    let mut second = [0u8; FILE_ROOM];
    run(
        read_file(rt, errors, 1, &mut first),
        read_file(rt, errors, 2, &mut second),
    )
}

// A refusal's number and what comes with it, a line each. The length of the text is returned, or an error where it cannot be written. The
// programs drop the length: it is what a contract can say here (D24).
pub fn put_refusal(rt: &impl Print, r: Refusal) -> io::Result<usize>
    ensures { IfOk result (λ n. n ≡ length (refusal_lines r)) }
{
    let text = job::refusal_lines(r);
    let lines = text.as_bytes();
    rt.write_all(lines)?;
    Ok(lines.len())
}
