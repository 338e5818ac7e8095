// Text in ASCII, in fixed memory: words, digits and lines.
//
// Internal: nothing here is a public entry.
#![tactic(auto)]

ghost use Rattle.std.specs.Prelude.{◌≡◌, [], ◌++◌, ◌+◌, ◌*◌, ◌<◌, ◌≤◌, length};
ghost use Rattle.bits.specs.Lists.{written};
ghost use Rattle.text.specs.Text.{places, decimal, hex_digit, hex_at, line};

use std::marker::Model;

// A text of at most N bytes.
#[derive(Drop)]
pub struct Text<const N: usize> {
    bytes: [u8; N],
    len: usize,
}

// A clause sees the text as the list of its bytes.
impl<const N: usize> Model for Text<N> {
    ghost use Rattle.std.specs.Prelude.{List, ℕ, ◌≤◌, take};

    ghost Value = { List ℕ };

    ghost view = { λ t. take t.len t.bytes };

    ghost invariant = { λ t. t.len ≤ N };
}

impl<const N: usize> Text<N> {
    pub fn new() -> Self
        ensures { result ≡ [] }
    {
        Text {
            bytes: [0; N],
            len: 0,
        }
    }

    pub fn as_bytes(&self) -> &[u8]
        ensures { result.now ≡ self.now }
    {
        &self.bytes[..self.len]
    }

    // Appends some bytes.
    pub fn push(&mut self, bytes: &[u8])
        requires { length self.old + length bytes.now ≤ N }
        ensures { self.new ≡ self.old ++ bytes.now }
    {
        let end = self.len + bytes.len();
        let room = &mut self.bytes[..];
        bits::put(bytes, &mut room[self.len..end]);
        self.len = end;
    }

    // Appends a number in decimal. The digits are made here, since no clause says when a `write!` succeeds.
    fn push_decimal(&mut self, n: u64)
        requires { length self.old + places n ≤ N }
        ensures { self.new ≡ self.old ++ decimal n }
    {
        let places = (1..20).find(|k| n < 10u64.pow(*k)).unwrap_or(20);
        for place in (0..places).rev() {
            self.push(&[b'0' + (n / 10u64.pow(place) % 10) as u8]);
        }
    }

    // Appends a line of a name and a value.
    pub fn push_line(&mut self, name: &[u8], value: &[u8])
        requires { length self.old + length (line name.now value.now) ≤ N }
        ensures { self.new ≡ self.old ++ line name.now value.now }
    {
        self.push(name);
        self.push(b" ");
        self.push(value);
        self.push(b"\n");
    }

    // Appends a line of a name and a number in decimal.
    pub fn push_number(&mut self, name: &[u8], n: u64)
        requires { length self.old + length name.now + 22 ≤ N }
        ensures { self.new ≡ self.old ++ line name.now (decimal n) }
    {
        self.push(name);
        self.push(b" ");
        self.push_decimal(n);
        self.push(b"\n");
    }
}

// A hex digit. Made here, as in `push_decimal`: no clause says when a `write!` succeeds.
#[tactic(auto, unfolding(crate::specs::Text::hex_digit))]
fn hex_digit(n: u8) -> u8
    requires { n < 16 }
    ensures { result ≡ hex_digit n }
{
    if n < 10 { b'0' + n } else { b'a' - 10 + n }
}

// Some bytes in hex, two digits a byte, at the start of `out`. By index: two places of `out` go with a byte, and `out` may be longer.
pub fn hex(bytes: &[u8], out: &mut [u8])
    requires { 2 * length bytes.now ≤ length out.old }
    ensures { out.new ≡ written (2 * length bytes.now) (hex_at bytes.now) out.old }
{
    for (k, byte) in bytes.iter().enumerate() {
        out[2 * k] = hex_digit(*byte / 16);
        out[2 * k + 1] = hex_digit(*byte % 16);
    }
}
