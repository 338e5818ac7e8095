// Prints the kept parity bits of made blocks, a line for each kind, rate and some taps, to be compared with what the
// reference finds for them.
#![tactic(auto)]

ghost use Rattle.std.specs.Prelude.{◌≡◌, ◌<◌, length};
ghost use Rattle.card.specs.Modes.{block_bytes};

use std::io;
use turbo::Encoder;

const TAPS: [u16; 6] = [0, 1095, 2047, 682, 1365, 731];

// A linear congruential generator's state after one step.
fn advanced(state: u32) -> u32 {
    state.wrapping_mul(1664525).wrapping_add(1013904223)
}

// Bytes from the generator, each the top byte of a state.
fn generate(seed: u32, bytes: &mut [u8]) {
    let mut state = seed;
    for byte in bytes {
        state = advanced(state);
        *byte = (state >> 24) as u8;
    }
}

// Bits as the characters 0 and 1.
fn to_text(bits: &mut [u8]) {
    for bit in bits {
        *bit = b'0' + *bit % 2;
    }
}

fn print_parity(rt: &impl Print, encoder: Encoder, bytes: &[u8]) -> io::Result<()>
    requires { length bytes.now ≡ block_bytes encoder.kind }
{
    let mut packed = [0u8; 520];
    encoder.encode(bytes, &mut packed);
    let mut out = [0u8; 4160];
    bits::unpack(&packed, &mut out);
    to_text(&mut out);
    let n = encoder.kept_count();
    rt.write_all(&out[..n])?;
    println!(rt)
}

fn print_line(rt: &impl Print, encoder: Encoder) -> io::Result<()> {
    print!(rt;
        "kind {} rate {} taps {} ",
        encoder.kind, encoder.rate, encoder.taps
    )?;
    let mut bytes = [0u8; 520];
    let seed = 12345 + 1000 * (encoder.kind as u32) + u32::from(encoder.taps);
    generate(seed, &mut bytes);
    let n = card::block_bytes(encoder.kind);
    print_parity(rt, encoder, &bytes[..n])
}

fn print_lines(rt: &impl Print, kind: usize, rate: usize) -> io::Result<()>
    requires { (kind < 5) × (rate < 2) }
{
    for taps in TAPS {
        print_line(rt, Encoder { kind, rate, taps })?;
    }
    Ok(())
}

fn main(rt: HostRuntime) -> io::Result<()> {
    for kind in 0..5 {
        print_lines(&rt, kind, 0)?;
    }
    print_lines(&rt, 4, 1)
}
