// The transmitter: opening, idle and characters. Samples go to the front of a caller's buffer, the specification's lent output; the
// state goes in and comes back by value.
#![tactic(auto)]

ghost use Rattle.std.specs.Prelude.{◌≡◌};
ghost use Rattle.calls.specs.Refusals.{refusal_number, first_of};
ghost use Rattle.calls.specs.Outcome.{as_answer, opened, outcome};
ghost use Rattle.transmitter.specs.Calls.{open_of, in_range, idle_tests, idle_of, characters_tests, characters_of};

mod bits;

use calls::{Answered, Refusal};

// The most bytes of one call.
pub const MOST_CHARACTERS: usize = 100;

// A band, and the phase of the next sample in 1,920ths of a cycle. C programs hold it as it is.
#[repr(C)]
#[derive(Clone, Copy)]
pub struct Transmitter {
    pub band: u8,
    pub phase: u16,
}

impl Transmitter {
    // The fresh state of a band, or that of band 1 beside a refusal: the specification's opening.
    #[tactic(auto, unfolding(crate::specs::Calls::open_of))]
    pub fn open(band: u8) -> Answered<Transmitter, ()>
        ensures { opened result ≡ open_of band }
    {
        if tones::is_band(band) {
            Answered {
                state: Transmitter { band, phase: 0 },
                answer: Ok(()),
            }
        } else {
            Answered {
                state: Transmitter { band: 1, phase: 0 },
                answer: Err(Refusal::UnknownBand),
            }
        }
    }

    // Sends three mark bits: the leader or the trailer of a message. It answers the count of samples.
    #[tactic(auto, using(crate::proofs::Rules::idle_sent, crate::proofs::Rules::idle_refused))]
    pub fn idle(self, out: &mut [i16]) -> Answered<Transmitter, usize>
        ensures { outcome (as_answer result.answer) result.state out.new ≡ idle_of self out.old }
    {
        match self.check_idle(out.len()) {
            Ok(()) => Answered {
                state: self.put_bits(out, 0, &[1; 3]),
                answer: Ok(96),
            },
            Err(refusal) => Answered {
                state: self,
                answer: Err(refusal),
            },
        }
    }

    // Sends bytes as characters. It answers the count of samples.
    #[tactic(auto, using(crate::proofs::Rules::characters_sent, crate::proofs::Rules::characters_refused))]
    pub fn characters(self, bytes: &[u8], out: &mut [i16]) -> Answered<Transmitter, usize>
        ensures { outcome (as_answer result.answer) result.state out.new
            ≡ characters_of self bytes.now out.old }
    {
        match self.check_characters(bytes.len(), out.len()) {
            Ok(()) => Answered {
                state: self.put_characters(out, bytes),
                answer: Ok(320 * bytes.len()),
            },
            Err(refusal) => Answered {
                state: self,
                answer: Err(refusal),
            },
        }
    }

    // The first reason to refuse an idle with so many places lent.
    fn check_idle(self, places: usize) -> Result<(), Refusal>
        ensures { refusal_number result ≡ first_of (idle_tests self places) }
    {
        if !self.in_range() {
            Err(Refusal::StateOutOfRange)
        } else if places < 96 {
            Err(Refusal::TooFewPlaces)
        } else {
            Ok(())
        }
    }

    // The same for so many characters.
    fn check_characters(self, characters: usize, places: usize) -> Result<(), Refusal>
        ensures { refusal_number result ≡ first_of (characters_tests self characters places) }
    {
        if !self.in_range() {
            Err(Refusal::StateOutOfRange)
        } else if MOST_CHARACTERS < characters {
            Err(Refusal::TooMany)
        } else if places < 320 * characters {
            Err(Refusal::TooFewPlaces)
        } else {
            Ok(())
        }
    }

    // The state is in its ranges.
    #[tactic(auto, unfolding(crate::specs::Calls::in_range))]
    fn in_range(self) -> bool
        ensures { result ≡ in_range self }
    {
        tones::is_band(self.band) && self.phase < 1920
    }
}
