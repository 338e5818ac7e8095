// The scrambler of a payload block: a register of ten stages, and the exclusive-or of its bits with the block.
//
// Internal: nothing here is a public entry. A function with a `requires` is called only where its caller has shown it.
#![tactic(auto)]

ghost use Rattle.std.specs.Prelude.{◌≡◌, ◌++◌, ◌≤◌, length, drop, slice_index, EachIndex};
ghost use Rattle.bits.specs.Bits.{pack};
ghost use Rattle.scrambler.specs.Scrambler.{feedback, shifted, after_shifts, scrambler_bit, all_ones, scrambler_byte, scramble};
ghost use Rattle.scrambler.specs.Loops.Following.{Following};

// Ten stages: stage i is bit i - 1. A step ignores the bits above them.
#[derive(Clone, Copy)]
pub struct Register(pub u16);

impl Register {
    // What every block starts from.
    pub const ALL_ONES: Register = Register(1023);

    // A register for a new block.
    pub fn new() -> Self
        ensures { result.0 ≡ all_ones }
    {
        Self::ALL_ONES
    }

    // A bit, and the register after it, in the form that D22 fixes. The bit is taken from stages 3 and 10 before the shift, and enters
    // at stage 1.
    pub fn step(self) -> (u8, Register)
        ensures { (result.0 ≡ feedback self.0) × (result.1.0 ≡ shifted self.0) }
    {
        let r = self.0;
        let bit = ((r >> 2) ^ (r >> 9)) % 2;
        let shifted = r % 512 * 2 + bit;
        (bit as u8, Register(shifted))
    }

    // Eight bits, the first the most significant, and the register after them.
    pub fn step_byte(self) -> (u8, Register)
        ensures { (result.0 ≡ pack 8 (scrambler_bit self.0)) × (result.1.0 ≡ after_shifts self.0 8) }
    {
        let mut register = self;
        let mut byte = 0;
        for _ in 0..u8::BITS {
            let (bit, after) = register.step();
            byte = byte * 2 + bit;
            register = after;
        }
        (byte, register)
    }
}

// The scrambler's bytes by the register's own steps.
fn step_bytes(out: &mut [u8])
    ensures { EachIndex out.new (λ k. slice_index out.new k ≡ scrambler_byte k) }
{
    let mut register = Register::new();
    for byte in out.iter_mut() {
        let (next, after) = register.step_byte();
        *byte = next;
        register = after;
    }
}

// The scrambler's bytes from the first `far`, which are there: each is the exclusive-or of those `far` and `near` before it, far
// quicker than eight steps of the register.
fn follow_bytes(far: usize, near: usize, out: &mut [u8])
    requires { Following far near out.old }
    ensures { EachIndex out.new (λ k. slice_index out.new k ≡ scrambler_byte k) }
{
    // By index, since each byte is made of bytes of the same slice, some of them just made.
    for i in far..out.len() {
        out[i] = out[i - far] ^ out[i - near];
    }
}

// The scrambler's bytes. The law of bytes ten and three before holds of eighty and twenty-four before too, which is faster, since
// more bytes can be made at a time. Lengths that are known ahead, ten and eighty, are faster than the lesser of those and the slice's.
fn put_bytes(out: &mut [u8])
    ensures { EachIndex out.new (λ k. slice_index out.new k ≡ scrambler_byte k) }
{
    if out.len() < 10 {
        step_bytes(out);
        return;
    }
    step_bytes(&mut out[..10]);
    if out.len() < 80 {
        follow_bytes(10, 3, out);
        return;
    }
    follow_bytes(10, 3, &mut out[..80]);
    follow_bytes(80, 24, out);
}

// A block, scrambled, at the start of `out`. Done twice it gives the block back, so it descrambles too.
pub fn scramble(bytes: &[u8], out: &mut [u8])
    requires { length bytes.now ≤ length out.old }
    ensures { out.new ≡ scramble bytes.now ++ drop (length bytes.now) out.old }
{
    put_bytes(&mut out[..bytes.len()]);
    bits::add_bytes(bytes, out);
}
