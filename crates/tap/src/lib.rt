// A tap on a line that carries a pair of bands: one receiver of each, fed the same blocks. The events of both go to one list.
#![tactic(auto)]

ghost use Rattle.std.specs.Prelude.{◌≡◌, Ok, IfOk};
ghost use Rattle.calls.specs.Refusals.{refusal_number, first_of};
ghost use Rattle.calls.specs.Outcome.{as_answer, opened, outcome};
ghost use Rattle.receiver.specs.Calls as receiver;
ghost use Rattle.tap.specs.Calls.{open_of, block_tests, block_of};

mod heard;
mod merge;
mod opening;

use calls::{Answered, Refusal};
use heard::Heard;
use merge::Merged;
use receiver::Receiver;

// The receivers of bands 1 and 2, or of 3 and 4.
#[derive(Clone, Copy)]
pub struct Tap {
    pub first: Receiver,
    pub second: Receiver,
}

impl Tap {
    // The fresh receivers of a pair of bands; of 1 and 2 if it is refused.
    #[tactic(auto, unfolding(crate::specs::Calls::open_of, tones::specs::Bands::is_pair))]
    pub fn open(first: u8, second: u8) -> Answered<Tap, ()>
        ensures { opened result ≡ open_of first second }
    {
        let answer = opening::check(first, second);
        let state = match answer {
            Ok(()) => opening::fresh(first, second),
            Err(_) => opening::fresh(1, 2),
        };
        Answered { state, answer }
    }

    // Reads a block of samples with both receivers, each into lists of its own, and merges their events: the numbers go to `events`, and the
    // difference of each to its place in `differences`. Answers how many there are. Two lists, as the specification lends them.
    pub fn block(
        self,
        samples: &[i16],
        events: &mut [u16],
        differences: &mut [i64],
    ) -> Answered<Tap, usize>
        ensures { outcome (as_answer result.answer) result.state (events.new, differences.new)
            ≡ block_of self samples.now (events.old, differences.old) }
    {
        let mut one = Heard::new();
        let mut two = Heard::new();
        let first = one.read(self.first, samples);
        let second = two.read(self.second, samples);
        let places = events.len().min(differences.len());
        match self.counts(first.answer, second.answer, samples, places) {
            Err(refusal) => Answered {
                state: self,
                answer: Err(refusal),
            },
            Ok((m, n)) => {
                let merged = Merged {
                    first: one.events(m, self.first.band),
                    second: two.events(n, self.second.band),
                };
                Answered {
                    state: Tap {
                        first: first.state,
                        second: second.state,
                    },
                    answer: Ok(merged.put(events, differences)),
                }
            }
        }
    }

    // How many events either receiver gave, or the first reason to refuse a block with so many places lent, from what the receivers answered
    // where they had as many places as a block can need.
    #[tactic(auto, using(crate::proofs::Numbers::out_of_range, crate::proofs::Numbers::no_pair), unfolding(crate::specs::Calls::in_range))]
    fn counts(
        self,
        first: Result<usize, Refusal>,
        second: Result<usize, Refusal>,
        samples: &[i16],
        places: usize,
    ) -> Result<(usize, usize), Refusal>
        requires first { refusal_number first ≡ first_of (receiver.block_tests self.first samples.now receiver.most_events) }
        requires second { refusal_number second ≡ first_of (receiver.block_tests self.second samples.now receiver.most_events) }
        ensures number { refusal_number result ≡ first_of (block_tests self samples.now places) }
        ensures counts { IfOk result (λ n. (first ≡ Ok n.0) × (second ≡ Ok n.1)) }
    {
        let out_of_range = Err(Refusal::StateOutOfRange);
        if first == out_of_range || second == out_of_range {
            return Err(Refusal::StateOutOfRange);
        }
        if !tones::is_pair(self.first.band, self.second.band) {
            return Err(Refusal::StateOutOfRange);
        }
        let m = first?;
        let n = second?;
        if places < 2 * (samples.len() / 48 + 1) {
            return Err(Refusal::TooFewPlaces);
        }
        Ok((m, n))
    }
}
