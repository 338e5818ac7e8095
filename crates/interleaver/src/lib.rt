// The channel interleaver of source 000, 5.1.5.4 ("Shuffling before the carriers" of paper 01): which source bit, of the data
// bits and then the kept parity bits, each coded bit is, and a block's bits, four to a row, put into that order and back.
//
// Internal: nothing here is a public entry. A function with a `requires` is called only where its caller has shown it.
#![tactic(auto)]

ghost use Rattle.std.specs.Prelude.{◌≡◌, true, cond, ◌+◌, ◌*◌, ◌/◌, ◌%◌, ◌<◌, ◌≤◌, length, get_or};
ghost use Rattle.bits.specs.Lists.{written};
ghost use Rattle.interleaver.specs.Rows.{passes, moved_row};
ghost use Rattle.interleaver_shape.specs.Shapes.{coded_of, coded_bits};
ghost use Rattle.interleaver_shape.specs.Loops.Bounds.{Small, Near, Paired};
ghost use Rattle.interleaver.specs.Source.{is_parity, data_place, column, coded_at};
ghost use Rattle.interleaver.specs.Loops.RowOrder.{row_place, row_source};
ghost use Rattle.interleaver.specs.Loops.Walks.{OnPass, parity_place, until_parity, Stands, Runs};
ghost use Rattle.bits.specs.Loops.Words.{stored};
ghost use Rattle.interleaver.specs.Loops.Moving.{Within, Orderly, BeforePass, DataRun, PairRun};
ghost use Rattle.interleaver.specs.Loops.Stores.{target, origin, carried};

use coding::Coding;
use interleaver_shape::Shape;

// Where the joined stream stands: its next nibble, how many data nibbles come before its next parity nibble, and that nibble's row.
#[derive(Clone, Copy)]
struct Stand {
    nibble: usize,
    left: usize,
    row: usize,
}

// Where a run of a pass stands: its next nibble, and that nibble's row.
#[derive(Clone, Copy)]
struct Run {
    nibble: usize,
    row: usize,
}

// A row moved up, modulo the number of rows. A division here makes a block at rate 16/18 slower, by 13 percent out and by 37 percent back.
fn moved_row(rows: usize, offset: usize, row: usize) -> usize
    requires { (row < rows) × (offset ≤ rows) × (rows < 65536) }
    ensures { (result ≡ moved_row rows offset row) × (result < rows) }
{
    let moved = row + offset;
    if moved < rows { moved } else { moved - rows }
}

// A block's bits as they come, in rows or coded, and the shape by which they go on. Where they go is no field: each method would have to
// promise that it leaves the other fields as they are.
#[derive(Clone, Copy)]
struct Block<'a> {
    shape: Shape,
    from: &'a [u8],
    ghost orderly: { Orderly shape },
    ghost small: { Small shape },
    ghost near: { Near shape },
    ghost whole: { length from.now ≡ coded_of shape },
}

impl Block<'_> {
    // The four bits of nibble n, which is rotated by `rotation` and whose row starts at `first`, from rows to coded bits or back. `BACK` is
    // a const parameter all through: the clauses name both ways at once by `cond BACK`, so each law is one lemma. A trait of two types
    // would have to say each law of both.
    fn move_word<const BACK: bool>(&self, n: usize, rotation: u32, first: usize, to: &mut [u8])
        requires { (rotation ≡ n / 2 % 4) × Within n first self.now.from.now to.old }
        ensures { to.new ≡ stored 4 (λ b. cond BACK (first + column n b) (n * 4 + b))
            (λ b. get_or self.now.from.now (cond BACK (n * 4 + b) (first + column n b)) 0) to.old }
    {
        if BACK {
            let word = bits::gather(self.from, n * 4, 1);
            bits::scatter(bits::rotated_back(word, rotation), first, 1, to);
        } else {
            let word = bits::gather(self.from, first, 1);
            bits::scatter(bits::rotated(word, rotation), n * 4, 1, to);
        }
    }

    // The four bits of nibble n, whose row starts at `first`, from rows to coded bits or back.
    fn move_nibble<const BACK: bool>(&self, n: usize, first: usize, to: &mut [u8])
        requires { Within n first self.now.from.now to.old }
        ensures { to.new ≡ stored 4 (λ b. cond BACK (first + column n b) (n * 4 + b))
            (λ b. get_or self.now.from.now (cond BACK (n * 4 + b) (first + column n b)) 0) to.old }
    {
        self.move_word::<BACK>(n, (n / 2 % 4) as u32, first, to);
    }

    // The parity nibble that the joined stream stands at, if it stands at one, and where the stream stands after it. `continuous` is asked
    // of the three methods that go by groups, and by no type: `Block` is also of shapes of pairs, and a second struct would wrap it for one
    // fact.
    fn move_parity<const BACK: bool>(&self, at: Stand, to: &mut [u8]) -> Stand
        requires { (coded_of self.now.shape ≤ length to.old) × (self.now.shape.continuous ≡ true) × Stands self.now.shape at × (at.nibble < self.now.shape.rows + self.now.shape.parity) }
        ensures stands { (result.nibble ≡ at.nibble + cond (is_parity self.now.shape at.nibble) 1 0) × (Stands self.now.shape result) × (0 < result.left) }
        ensures moved { to.new ≡ carried self.now.shape BACK self.now.from.now at.nibble result.nibble to.old }
    {
        if 0 < at.left {
            return at;
        }
        self.move_nibble::<BACK>(at.nibble, (self.shape.rows + at.row) * 4, to);
        Stand {
            nibble: at.nibble + 1,
            left: self.shape.group,
            row: moved_row(self.shape.parity, self.shape.step, at.row),
        }
    }

    // Data nibbles of a pass, as long as the row is below `end`, with no parity nibble among them.
    fn move_data<const BACK: bool>(&self, start: Run, end: usize, to: &mut [u8]) -> Run
        requires { (coded_of self.now.shape ≤ length to.old) × DataRun self.now.shape start end }
        ensures stands { (start.nibble ≤ result.nibble) × (result.nibble ≤ self.now.shape.rows + self.now.shape.parity)
            × (OnPass self.now.shape.rows self.now.shape.step (data_place self.now.shape result.nibble) result.row)
            × (result.row % self.now.shape.step ≡ start.row % self.now.shape.step) × (end ≤ result.row)
            × (parity_place self.now.shape result.nibble ≡ parity_place self.now.shape start.nibble)
            × (until_parity self.now.shape result.nibble + result.nibble ≡ until_parity self.now.shape start.nibble + start.nibble) }
        ensures moved { to.new ≡ carried self.now.shape BACK self.now.from.now start.nibble result.nibble to.old }
    {
        let mut at = start;
        // a `while`, since the first row past the end is part of the result
        while at.row < end {
            self.move_nibble::<BACK>(at.nibble, at.row * 4, to);
            at.nibble += 1;
            at.row += self.shape.step;
        }
        at
    }

    // The data nibbles of a pass, and the parity nibbles before each of them.
    fn move_pass<const BACK: bool>(&self, pass: usize, start: Stand, to: &mut [u8]) -> Stand
        requires { (coded_of self.now.shape ≤ length to.old) × (self.now.shape.continuous ≡ true) × BeforePass self.now.shape pass start }
        ensures stands { (start.nibble ≤ result.nibble) × (Stands self.now.shape result)
            × (data_place self.now.shape result.nibble ≡ length (passes self.now.shape.rows self.now.shape.step (pass + 1))) }
        ensures moved { to.new ≡ carried self.now.shape BACK self.now.from.now start.nibble result.nibble to.old }
    {
        let mut at = start;
        let mut row = pass;
        // a `while`, since each run says at which row the next one starts
        while row < self.shape.rows {
            let data = self.move_parity::<BACK>(at, to);
            let first = Run {
                nibble: data.nibble,
                row,
            };
            let end = self.shape.rows.min(row + data.left * self.shape.step);
            let last = self.move_data::<BACK>(first, end, to);
            at = Stand {
                nibble: last.nibble,
                left: data.left + data.nibble - last.nibble,
                row: data.row,
            };
            row = last.row;
        }
        at
    }

    // All nibbles of a shape whose parity rows are read on without a restart.
    fn move_groups<const BACK: bool>(&self, to: &mut [u8])
        requires { (coded_of self.now.shape ≤ length to.old) × (self.now.shape.continuous ≡ true) }
        ensures { to.new ≡ carried self.now.shape BACK self.now.from.now 0 (self.now.shape.rows + self.now.shape.parity) to.old }
    {
        let mut at = Stand {
            nibble: 0,
            left: self.shape.lead,
            row: self.shape.offset,
        };
        for pass in 0..self.shape.step {
            at = self.move_pass::<BACK>(pass, at, to);
        }
        if at.nibble < self.shape.rows + self.shape.parity {
            self.move_parity::<BACK>(at, to);
        }
    }

    // Pairs of a pass, as long as the row is below `end`. Both nibbles of a pair are rotated alike, and its parity row stands `apart` after
    // its data row. One walk for this and `move_data` would promise either what `DataRun` leads to or what `PairRun` does, by a flag.
    fn move_run<const BACK: bool>(&self, start: Run, end: usize, apart: usize, to: &mut [u8]) -> Run
        requires { (coded_of self.now.shape ≤ length to.old) × PairRun self.now.shape start end apart }
        ensures stands { (start.nibble ≤ result.nibble) × (Runs self.now.shape result) × (result.row % self.now.shape.step ≡ start.row % self.now.shape.step) × (end ≤ result.row) }
        ensures moved { to.new ≡ carried self.now.shape BACK self.now.from.now start.nibble result.nibble to.old }
    {
        let mut at = start;
        // a `while`, since the first row past the end is part of the result
        while at.row < end {
            let rotation = (at.nibble / 2 % 4) as u32;
            self.move_word::<BACK>(at.nibble, rotation, at.row * 4, to);
            self.move_word::<BACK>(at.nibble + 1, rotation, (apart + at.row) * 4, to);
            at.nibble += 2;
            at.row += self.shape.step;
        }
        at
    }

    // All nibbles of a shape of pairs. The parity rows of a pass go past the end once, and then on from the first row.
    fn move_pairs<const BACK: bool>(&self, to: &mut [u8])
        requires { (coded_of self.now.shape ≤ length to.old) × Paired self.now.shape }
        ensures { to.new ≡ carried self.now.shape BACK self.now.from.now 0 (self.now.shape.rows + self.now.shape.parity) to.old }
    {
        let bend = self.shape.rows - self.shape.offset;
        let before = self.shape.rows + self.shape.offset;
        let mut nibble: usize = 0;
        for pass in 0..self.shape.step {
            let start = Run { nibble, row: pass };
            let past = self.move_run::<BACK>(start, bend, before, to);
            let last = self.move_run::<BACK>(past, self.shape.rows, self.shape.offset, to);
            nibble = last.nibble;
        }
    }
}

// All bits of a block, from rows to coded bits or back.
fn move_bits<const BACK: bool>(coding: Coding, from: &[u8], to: &mut [u8])
    requires { (length from.now ≡ coded_bits coding.kind coding.rate) × (coded_bits coding.kind coding.rate ≤ length to.old) }
    ensures { to.new ≡ stored (coded_bits coding.kind coding.rate) (target BACK (row_place coding.kind coding.rate))
        (λ i. get_or from.now (origin BACK (row_place coding.kind coding.rate) i) 0) to.old }
{
    let block = Block {
        shape: interleaver_shape::shape_of(coding),
        from,
    };
    if block.shape.continuous {
        block.move_groups::<BACK>(to);
    } else {
        block.move_pairs::<BACK>(to);
    }
}

// The coded bits of a block's rows, at the start of `out`.
pub fn interleave(coding: Coding, rows: &[u8], out: &mut [u8])
    requires { (length rows.now ≡ coded_bits coding.kind coding.rate) × (coded_bits coding.kind coding.rate ≤ length out.old) }
    ensures { out.new ≡ written (coded_bits coding.kind coding.rate) (λ i. get_or rows.now (row_place coding.kind coding.rate i) 0) out.old }
{
    move_bits::<false>(coding, rows, out);
}

// The rows of a block's coded bits, at the start of `rows`.
pub fn deinterleave(coding: Coding, coded: &[u8], rows: &mut [u8])
    requires { (length coded.now ≡ coded_bits coding.kind coding.rate) × (coded_bits coding.kind coding.rate ≤ length rows.old) }
    ensures { rows.new ≡ written (coded_bits coding.kind coding.rate) (λ j. get_or coded.now (coded_at coding.kind coding.rate (row_source coding.kind coding.rate j)) 0) rows.old }
{
    move_bits::<true>(coding, coded, rows);
}
