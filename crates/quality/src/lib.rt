// The smallest difference of the two energies over the data and stop slots of a character so far, which a receiver keeps beside run and
// stage. It follows what these do and never steers them. Every function takes every value of its types.
#![tactic(auto)]

ghost use Rattle.std.specs.Prelude.{◌≡◌};
ghost use Rattle.quality.specs.Quality.{least_with, kept_in, is_gathering, is_kept};
ghost use Rattle.quality.specs.AsCoded.{measured_by};

use control::{Control, Stage};

// Run and stage, and beside them the smallest difference so far, where a data slot of a character has been taken.
#[derive(Clone, Copy, Debug, PartialEq, Eq)]
pub struct Tracked {
    pub control: Control,
    pub smallest: Option<i64>,
}

// What a slot leaves: the smallest difference behind it, and the difference that an event of the slot carries.
#[derive(Clone, Copy, Debug, PartialEq, Eq)]
pub struct Measured {
    pub smallest: Option<i64>,
    pub difference: i64,
}

// A slot is taken at a window with this difference, and leads to the stage `then`. A start slot does not count.
pub fn measure(slot: u8, smallest: Option<i64>, difference: i64, then: Stage) -> Measured
    ensures { result ≡ measured_by slot smallest difference then }
{
    let least = least_with(smallest, difference);
    let behind = if slot == 0 {
        smallest
    } else {
        kept_in(then, least)
    };
    Measured {
        smallest: behind,
        difference: least,
    }
}

// The smaller of the smallest difference so far and one more.
fn least_with(smallest: Option<i64>, difference: i64) -> i64
    ensures { result ≡ least_with smallest difference }
{
    match smallest {
        None => difference,
        Some(least) => difference.min(least),
    }
}

// What a stage keeps of the smallest difference: while it waits the character goes on, and otherwise it is over.
fn kept_in(stage: Stage, least: i64) -> Option<i64>
    ensures { result ≡ kept_in stage least }
{
    match stage {
        Stage::Waiting { .. } => Some(least),
        Stage::Searching | Stage::Held => None,
    }
}

// The difference is in its range beside a stage: present exactly where a data slot has been taken, and never negative.
#[tactic(auto, unfolding(crate::specs::Quality::is_kept))]
pub fn is_kept(stage: Stage, smallest: Option<i64>) -> bool
    ensures { result ≡ is_kept stage smallest }
{
    match smallest {
        None => !is_gathering(stage),
        Some(least) => is_gathering(stage) && 0 <= least,
    }
}

// The stage waits for one of the slots 2 to 9.
fn is_gathering(stage: Stage) -> bool
    ensures { result ≡ is_gathering stage }
{
    matches!(stage, Stage::Waiting { slot: 2..=9, .. })
}
