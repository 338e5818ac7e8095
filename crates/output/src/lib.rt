// What failed, on standard error or wherever `to` prints.
//
// Internal: nothing here is a public entry. What the system's calls do is assumed, as in every program, and no contract can say what is
// written (D24): a function here promises nothing, and answers an error where a write fails.
#![tactic(auto)]

ghost use Rattle.std.specs.Prelude.{◌≤◌, length};

use std::io;
use std::io::{Cursor, Write};

// The system's words of an error's text: the number of the error stands behind them, or zeros do. By index, since a place is judged by its
// byte and by what begins there: `windows` as long as ` (os error ` would pass over the last places.
fn words(text: &[u8]) -> &[u8]
    ensures { length result.now ≤ length text.now }
{
    for (i, b) in text.iter().enumerate() {
        if *b == 0 || text[i..].starts_with(b" (os error ") {
            return &text[..i];
        }
    }
    text
}

// The system's words for an error.
fn put_reason(to: &impl Print, why: io::Error) -> io::Result<()> {
    let mut text = [0u8; 300];
    write!(Cursor::new(&mut text[..]), "{why}")?;
    to.write_all(words(&text))
}

// A line that says what failed, as the caller names it, and why.
pub fn put_failure(to: &impl Print, what: &[u8], why: io::Error) -> io::Result<()> {
    to.write_all(what)?;
    print!(to; ": ")?;
    put_reason(to, why)?;
    println!(to)
}
