// What every call answers, accepted or refused, and how a list is put into a caller's buffer. What a call gives is Outcome of
// specs/Outcome.antt.
#![tactic(auto)]

ghost use Rattle.std.specs.Prelude.{◌≡◌};
ghost use Rattle.std.proofs.lemmas.List.Edits.{sets};
ghost use Rattle.calls.specs.Refusals.{number_of};
ghost use Rattle.calls.specs.Outcome.{as_answer};

// Why a call is refused, in the order of the numbers from 1 on: the specification, "Refused calls"; the last is of the calls on two bands.
#[derive(Clone, Copy, Debug, PartialEq, Eq)]
pub enum Refusal {
    UnknownBand,
    StateOutOfRange,
    TooMany,
    TooFewPlaces,
    SampleOutOfRange,
    SheetTooLong,
    NotASheet,
    NotAPair,
}

// Its number in the table.
impl From<Refusal> for u8 {
    ghost from_gives = { λ refusal n. n ≡ number_of refusal };

    fn from(refusal: Refusal) -> u8 {
        match refusal {
            Refusal::UnknownBand => 1,
            Refusal::StateOutOfRange => 2,
            Refusal::TooMany => 3,
            Refusal::TooFewPlaces => 4,
            Refusal::SampleOutOfRange => 5,
            Refusal::SheetTooLong => 6,
            Refusal::NotASheet => 7,
            Refusal::NotAPair => 8,
        }
    }
}

// What a call on a state gives: the next state with what it answers, or the state as handed with the reason to refuse.
#[derive(Clone, Copy)]
pub struct Answered<S, T> {
    pub state: S,
    pub answer: Result<T, Refusal>,
}

// What C programs get: the number 0 and how many places of the buffer were used, or the number of a refusal and 0.
#[repr(C)]
#[derive(Clone, Copy)]
pub struct Answer {
    pub number: u8,
    pub count: usize,
}

impl From<Result<usize, Refusal>> for Answer {
    ghost from_gives = { λ r answer. answer ≡ as_answer r };

    fn from(answer: Result<usize, Refusal>) -> Answer {
        match answer {
            Ok(count) => Answer { number: 0, count },
            Err(refusal) => Answer {
                number: refusal.into(),
                count: 0,
            },
        }
    }
}

// Copies items to a buffer from the place `at` on. Those for which there is no place are left out.
pub fn put<T: Copy>(out: &mut [T], at: usize, items: &[T])
    ensures { out.new ≡ sets out.old at items.now }
{
    if at < out.len() {
        let n = items.len().min(out.len() - at);
        out[at..at + n].copy_from_slice(&items[..n]);
    }
}
