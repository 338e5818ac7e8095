// The bands: their numbers, and the two units of a usable list, sub-carriers and places (000, 5.1.4.4; 004 for bands 2 and 3).
//
// `place_of` and `sub_carrier_of` are public entries: they take every number and refuse by the table. The rest is internal: a
// `Band` is made of a number that is shown to be a band's, or by `Band::new`.
#![tactic(auto)]

ghost use Rattle.std.specs.Prelude.{◌≡◌, ◌<◌, ◌≤◌, MatchOption};
ghost use Rattle.bands.specs.Bands.{band_count, first_sub_carrier, last_sub_carrier, symbols as symbols_of, offsets as offsets_of, carriers as carriers_of};
ghost use Rattle.bands.specs.Units.{place_report, sub_carrier_report, place_of, sub_carrier_of};

use refusal::Refusal;

// The number of a sub-carrier.
#[derive(Clone, Copy)]
pub struct SubCarrier(pub usize);

// A place in a band's usable list (paper 01's term): place 0 is the band's first sub-carrier.
#[derive(Clone, Copy)]
pub struct Place(pub usize);

// A defined band, by its number.
#[derive(Clone, Copy)]
pub struct Band {
    pub number: usize,
    pub ghost defined: { number < band_count },
}

// A band's first and its last sub-carrier, and how many frame-control symbols it has.
#[derive(Clone, Copy)]
struct Row {
    first: usize,
    last: usize,
    symbols: usize,
}

const BANDS: [Row; 4] = [
    Row {
        first: 80,
        last: 490,
        symbols: 4,
    },
    Row {
        first: 100,
        last: 230,
        symbols: 12,
    },
    Row {
        first: 32,
        last: 120,
        symbols: 12,
    },
    Row {
        first: 72,
        last: 120, // where band 2 ends, too
        symbols: 12,
    },
];

// The offset of each frame-control symbol; a band with fewer symbols has the first of them.
static OFFSETS: [u8; 12] = [0, 192, 160, 96, 144, 80, 48, 240, 24, 184, 136, 40];

impl Band {
    // The band of a number, where one is defined.
    pub fn new(number: usize) -> Option<Band>
        ensures { MatchOption result (band_count ≤ number) (λ b. b.number ≡ number) }
    {
        if number < BANDS.len() {
            Some(Band { number })
        } else {
            None
        }
    }

    // Its first sub-carrier.
    fn first(self) -> usize
        ensures { result ≡ first_sub_carrier self.number }
    {
        BANDS[self.number].first
    }

    // Its last sub-carrier.
    fn last(self) -> usize
        ensures { result ≡ last_sub_carrier self.number }
    {
        BANDS[self.number].last
    }

    // The carriers of a symbol.
    pub fn carriers(self) -> usize
        ensures { result ≡ carriers_of self.number }
    {
        self.last() - self.first() + 1
    }

    // Its frame-control symbols.
    pub fn symbols(self) -> usize
        ensures { result ≡ symbols_of self.number }
    {
        BANDS[self.number].symbols
    }

    // The offset of each of its frame-control symbols.
    pub fn offsets(self) -> &'static [u8]
        ensures { result.now ≡ offsets_of self.number }
    {
        &OFFSETS[..self.symbols()]
    }
}

// The place of a sub-carrier in a band.
pub fn place_of(band: usize, s: SubCarrier) -> Result<Place, Refusal>
    ensures { place_report result ≡ place_of band s.0 }
{
    let Some(band) = Band::new(band) else {
        return Err(Refusal::Mode);
    };
    let number = s.0;
    let first = band.first();
    if number < first {
        return Err(Refusal::Length(number));
    }
    // a test of its own, which the edit `last_sub_carrier_refused` changes alone
    if band.last() < number {
        return Err(Refusal::Length(number));
    }
    Ok(Place(number - first))
}

// The sub-carrier at a place of a band.
pub fn sub_carrier_of(band: usize, p: Place) -> Result<SubCarrier, Refusal>
    ensures { sub_carrier_report result ≡ sub_carrier_of band p.0 }
{
    let Some(band) = Band::new(band) else {
        return Err(Refusal::Mode);
    };
    let number = p.0;
    if band.carriers() <= number {
        return Err(Refusal::Length(number));
    }
    Ok(SubCarrier(band.first() + number))
}
