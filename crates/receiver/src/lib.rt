// The receiver, the specification's reader: opening, and blocks of samples to events. Events go to the front of a caller's lists, the
// specification's lent lists: their numbers, and place by place their differences. The state goes in and comes back by value.
#![tactic(auto)]

ghost use Rattle.std.specs.Prelude.{◌≡◌, ◌≤◌, length};
ghost use Rattle.calls.specs.Refusals.{refusal_number, first_of};
ghost use Rattle.calls.specs.Outcome.{as_answer, opened, outcome};
ghost use Rattle.receiver.specs.Step.{tracked_of};
ghost use Rattle.receiver.specs.Calls.{open_of, in_range, block_tests, block_of, indexed_of};
ghost use Rattle.receiver.specs.Lent.{SameLists};
ghost use Rattle.receiver.specs.AsCoded.{block_in, indices_in};

mod block;
mod ends;
mod energy;
mod filling;
mod opening;
mod place;
mod scan;
mod seek;
mod source;

use crate::filling::Lists;
use calls::{Answered, Refusal};
use control::{Control, Stage};
use quality::Tracked;

// The most events of a block: the places that the longest one needs.
pub const MOST_EVENTS: usize = tones::MOST_SAMPLES / 48 + 1;

// The last 32 samples, oldest first, a band, the run of samples with a good level, the stage, and the smallest difference of the energies over
// the data slots of a character so far. The samples stand first, since copies of a state are quicker so.
#[derive(Clone, Copy)]
pub struct Receiver {
    pub window: [i16; 32],
    pub band: u8,
    pub run: u8,
    pub stage: Stage,
    pub smallest: Option<i64>,
}

impl Receiver {
    // The fresh state of a band: the specification's opening. A refused one gives the fresh state of band 1.
    #[tactic(auto, unfolding(crate::specs::Calls::open_of))]
    pub fn open(band: u8) -> Answered<Receiver, ()>
        ensures { opened result ≡ open_of band }
    {
        if tones::is_band(band) {
            Answered {
                state: opening::fresh(band),
                answer: Ok(()),
            }
        } else {
            Answered {
                state: opening::fresh(1),
                answer: Err(Refusal::UnknownBand),
            }
        }
    }

    // Reads a block of samples: the numbers of its events go to `events`, and the difference of each to its place in `differences`. It
    // answers how many there are.
    pub fn block(
        self,
        samples: &[i16],
        events: &mut [u16],
        differences: &mut [i64],
    ) -> Answered<Receiver, usize>
        ensures { outcome (as_answer result.answer) result.state (events.new, differences.new)
            ≡ block_of self samples.now (events.old, differences.old) }
    {
        let places = events.len().min(differences.len());
        let mut none = [0u16; 0];
        let mut lists = Lists {
            events,
            differences,
            indices: &mut none,
            count: 0,
        };
        self.block_in(samples, places, &mut lists)
    }

    // Reads a block of samples, and tells with which of them each event came: the index in the block goes to the event's place in
    // `indices`.
    pub fn block_indexed(
        self,
        samples: &[i16],
        events: &mut [u16],
        differences: &mut [i64],
        indices: &mut [u16],
    ) -> Answered<Receiver, usize>
        ensures { outcome (as_answer result.answer) result.state ((events.new, differences.new), indices.new)
            ≡ indexed_of self samples.now ((events.old, differences.old), indices.old) }
    {
        let places = events.len().min(differences.len()).min(indices.len());
        let mut lists = Lists {
            events,
            differences,
            indices,
            count: 0,
        };
        self.block_in(samples, places, &mut lists)
    }

    // Reads a block with so many places of the lists, and tells the indices as far as there are places for them.
    fn block_in(
        self,
        samples: &[i16],
        places: usize,
        lists: &mut Lists,
    ) -> Answered<Receiver, usize>
        requires empty { lists.old.count ≡ 0 }
        requires events { places ≤ length lists.old.events.now }
        requires differences { places ≤ length lists.old.differences.now }
        ensures read { outcome (as_answer result.answer) result.state (lists.new.events.now, lists.new.differences.now)
            ≡ block_in self samples.now places (lists.old.events.now, lists.old.differences.now) }
        ensures told { lists.new.indices.now ≡ indices_in self samples.now places lists.old.indices.now }
        ensures same { SameLists lists.old lists.new }
    {
        if let Err(refusal) = self.check(samples, places) {
            return Answered {
                state: self,
                answer: Err(refusal),
            };
        }
        let state = block::read(self, samples, lists);
        Answered {
            state,
            answer: Ok(lists.count),
        }
    }

    // The first reason to refuse a block with so many places lent.
    fn check(&self, samples: &[i16], places: usize) -> Result<(), Refusal>
        ensures { refusal_number result ≡ first_of (block_tests self.now samples.now places) }
    {
        if !self.in_range() {
            return Err(Refusal::StateOutOfRange);
        }
        if samples.len() > tones::MOST_SAMPLES {
            return Err(Refusal::TooMany);
        }
        if !tones::are_samples(samples) {
            return Err(Refusal::SampleOutOfRange);
        }
        if places < samples.len() / 48 + 1 {
            return Err(Refusal::TooFewPlaces);
        }
        Ok(())
    }

    // The state is in its ranges.
    #[tactic(auto, unfolding(crate::specs::Calls::in_range))]
    fn in_range(&self) -> bool
        ensures { result ≡ in_range self.now }
    {
        tones::is_band(self.band)
            && tones::are_samples(&self.window)
            && control::is_control(self.tracked().control)
            && quality::is_kept(self.stage, self.smallest)
    }

    // What decisions move of it.
    fn tracked(&self) -> Tracked
        ensures { result ≡ tracked_of self.now }
    {
        Tracked {
            control: Control {
                run: self.run,
                stage: self.stage,
            },
            smallest: self.smallest,
        }
    }
}
