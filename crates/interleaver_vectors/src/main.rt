// Prints, for each kind and rate, the source bit numbers of coded bits 0, 1 and so on, as the interleaver puts them in order.
#![tactic(auto)]

ghost use Rattle.std.specs.Prelude.{◌≡◌, ◌+◌, ◌*◌, ◌<◌, ◌≤◌, length};
ghost use Rattle.interleaver_shape.specs.Shapes.{coded_bits};

use coding::Coding;
use std::io;

// Room for the coded bits of any block.
const ROOM: usize = 8320;

// One byte of the source bit's number at each place of so many rows, from `first` on, whose columns were filled one after the other: the lower
// byte where unit is 1, the upper one where it is 256.
fn number(s: &mut [u8], first: usize, height: usize, unit: usize)
    requires { (0 < unit) × (first + height * 4 ≤ length s.old) }
{
    for (j, byte) in s[first..first + height * 4].iter_mut().enumerate() {
        *byte = ((first + j % 4 * height + j / 4) / unit % 256) as u8;
    }
}

// Those bytes of all rows in coded order.
fn shuffle(coding: Coding, unit: usize, out: &mut [u8])
    requires { (0 < unit) × (coded_bits coding.kind coding.rate ≤ length out.old) }
{
    let n = interleaver_shape::coded_bits(coding);
    let data = interleaver_shape::data_rows(coding.kind);
    let parity = interleaver_shape::parity_rows(coding);
    let mut rows = [0u8; ROOM];
    number(&mut rows, 0, data, unit);
    number(&mut rows, data * 4, parity, unit);
    interleaver::interleave(coding, &rows[..n], out);
}

// A line of the first n numbers, each of two bytes.
fn print_numbers(rt: &impl Print, n: usize, high: &[u8], low: &[u8]) -> io::Result<()> {
    for (i, (high, low)) in high.iter().zip(low).take(n).enumerate() {
        if 0 < i {
            print!(rt; " ")?;
        }
        rt.print(u16::from_be_bytes([*high, *low]))?;
    }
    println!(rt)
}

// The two lines of a kind and rate.
fn print_layout(rt: &impl Print, coding: Coding) -> io::Result<()> {
    println!(rt; "kind {} rate {}", coding.kind, coding.rate)?;
    let n = interleaver_shape::coded_bits(coding);
    let mut high = [0u8; ROOM];
    let mut low = [0u8; ROOM];
    shuffle(coding, 256, &mut high);
    shuffle(coding, 1, &mut low);
    print_numbers(rt, n, &high, &low)
}

fn main(rt: HostRuntime) -> io::Result<()> {
    for kind in 0..5 {
        let coding = Coding {
            kind,
            rate: 0,
            taps: 0,
        };
        print_layout(&rt, coding)?;
    }
    let coding = Coding {
        kind: 4,
        rate: 1,
        taps: 0,
    };
    print_layout(&rt, coding)
}
