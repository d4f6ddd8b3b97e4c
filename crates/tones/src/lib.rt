// The tones of the bands: how far each moves the phase in a sample, in 1,920ths of a cycle (5 Hz). And the range of a sample.
#![tactic(auto)]

ghost use Rattle.std.specs.Prelude.{◌≡◌};
ghost use Rattle.tones.specs.Bands.{row, is_band, is_pair, tones_of};
ghost use Rattle.tones.specs.Samples.{is_between, are_between, are_samples};

// The steps of the two tones. Neither is taken to be the larger.
#[derive(Clone, Copy, Debug, PartialEq, Eq)]
pub struct Tones {
    pub space: u16,
    pub mark: u16,
}

// The most samples of a block, and of a sheet.
pub const MOST_SAMPLES: usize = 16384;

// One row a band, from band 1 on.
const BANDS: [Tones; 4] = [
    Tones {
        space: 214,
        mark: 254,
    },
    Tones {
        space: 405,
        mark: 445,
    },
    Tones {
        space: 236,
        mark: 196,
    },
    Tones {
        space: 370,
        mark: 330,
    },
];

#[tactic(auto, using(crate::proofs::Laws::row_known))]
pub fn is_band(band: u8) -> bool
    ensures { result ≡ is_band band }
{
    row(band).is_some()
}

// The bands are those of a line in both directions, in this order.
#[tactic(auto, unfolding(crate::specs::Bands::is_pair))]
pub fn is_pair(first: u8, second: u8) -> bool
    ensures { result ≡ is_pair first second }
{
    matches!((first, second), (1, 2) | (3, 4))
}

// The tones of a band, and those of band 1 for a number that is no band.
#[tactic(auto, using(crate::proofs::Laws::row_tones))]
pub fn tones_of(band: u8) -> Tones
    ensures { result ≡ tones_of band }
{
    row(band).unwrap_or(BANDS[0])
}

// The row of a band, if the number is one.
#[tactic(auto, unfolding(crate::specs::Bands::row, crate::specs::Bands::bands))]
fn row(band: u8) -> Option<Tones>
    ensures { result ≡ row band }
{
    let before = band.checked_sub(1)?;
    BANDS.get(usize::from(before)).copied()
}

// Every number is a sample.
pub fn are_samples(xs: &[i16]) -> bool
    ensures { result ≡ are_samples xs.now }
{
    are_between(xs, -8191, 8191)
}

// Every number is at least `low` and at most `high`. It goes on behind one that is not, so that the loop becomes vector code.
#[tactic(auto, using(crate::proofs::Samples::between_more), unfolding(crate::specs::Samples::are_between))]
pub fn are_between(xs: &[i16], low: i16, high: i16) -> bool
    ensures { result ≡ are_between low high xs.now }
{
    let mut good = true;
    for &x in xs {
        good &= is_between(x, low, high);
    }
    good
}

fn is_between(x: i16, low: i16, high: i16) -> bool
    ensures { result ≡ is_between low high x }
{
    (low..=high).contains(&x)
}
