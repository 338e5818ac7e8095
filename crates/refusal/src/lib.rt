// The numbered list of paper 01 ("Numbers a fitter may see"): why an entry refuses, and what comes with it.
//
// `refusal` of specs/ gives the number and the values of each case, and every contract above goes through it.
// Internal: nothing here is a public entry.
#![tactic(auto)]

ghost use Rattle.std.specs.Prelude.{◌≡◌, ◌∷◌, [], ℕ};
ghost use Rattle.refusal.specs.Report.{refusal, answer, number, values};

// A case for each number of the table, in its order. None has 9: it was "pad longer than the coded data", is withdrawn, and is given to
// nothing else. There is no Display, since each place has a form of its own: a card's text has one line with the number (`printed_card`), a
// program's refusal two lines (`job`), and a line of `constellation_vectors` the number and the place of a wrong bit.
#[derive(Clone, Copy, Debug, PartialEq, Eq)]
pub enum Refusal {
    // 1: the card is neither 11 nor 12 bytes; its length
    CardLength(usize),
    // 2: the version is neither 1 nor 2, spare is not 0, or padding is not 0 on twelve bytes of version 2
    Version,
    // 10: version and length disagree
    VersionLength,
    // 3: the mode is not defined, or not served by the entry
    Mode,
    // 4: an input's length, a place or a sub-carrier is wrong; that number
    Length(usize),
    // 5: the output is shorter than needed; the needed length
    Room(usize),
    // 6: an item is not legal; the lowest such index
    Item(usize),
    // 7: a coded bit has no strict majority; the lowest such bit
    Majority(usize),
    // 8: parity disagrees; the count of kept parity bits that disagree
    Parity(usize),
    // 11: version 1 cannot say the block count and the copy count
    Counts,
}

impl Refusal {
    // The number of a refusal.
    pub fn number(self) -> u32
        ensures { result ≡ number (refusal {A = ℕ} self) }
    {
        match self {
            Refusal::CardLength(_) => 1,
            Refusal::Version => 2,
            Refusal::VersionLength => 10,
            Refusal::Mode => 3,
            Refusal::Length(_) => 4,
            Refusal::Room(_) => 5,
            Refusal::Item(_) => 6,
            Refusal::Majority(_) => 7,
            Refusal::Parity(_) => 8,
            Refusal::Counts => 11,
        }
    }

    // What comes with a refusal: 0 where nothing does.
    fn value(self) -> usize
        ensures { values (refusal self) ≡ result ∷ 0 ∷ [] }
    {
        match self {
            Refusal::CardLength(n)
            | Refusal::Length(n)
            | Refusal::Room(n)
            | Refusal::Item(n)
            | Refusal::Majority(n)
            | Refusal::Parity(n) => n,
            Refusal::Version | Refusal::VersionLength | Refusal::Mode | Refusal::Counts => 0,
        }
    }
}

// An answer as C takes it: the number is returned, and what comes with it is stored behind `value`. An entry that writes into a lent
// buffer answers how many elements it wrote, or why it wrote none.
pub fn report(a: Result<usize, Refusal>, value: &mut [u64; 2]) -> u32
    ensures number { result ≡ number (answer a) }
    ensures values { value.new ≡ values (answer a) }
{
    match a {
        Ok(n) => {
            *value = [n as u64, 0];
            0
        }
        Err(r) => {
            let v = r.value();
            *value = [v as u64, 0];
            r.number()
        }
    }
}
