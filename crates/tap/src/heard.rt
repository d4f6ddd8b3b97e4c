// What one of the tap's receivers gives for a block.
ghost use Rattle.std.specs.Prelude.{◌≡◌, ◌≤◌, take};
ghost use Rattle.calls.specs.Outcome.{as_answer, outcome};
ghost use Rattle.receiver.specs.Calls.{most_events, shortest, indexed_of};
ghost use Rattle.tap.specs.AsCoded.{AreEvents, listed};

use super::merge::Events;
use calls::Answered;
use receiver::{MOST_EVENTS, Receiver};

// The lists that it fills, as long as any block needs. Three and not one of structs, since `Receiver::block_indexed` fills three lists.
#[derive(Drop)]
pub(crate) struct Heard {
    numbers: [u16; MOST_EVENTS],
    differences: [i64; MOST_EVENTS],
    indices: [u16; MOST_EVENTS],
}

impl Heard {
    pub(crate) fn new() -> Self
        ensures { shortest ((result.numbers, result.differences), result.indices) ≡ most_events }
    {
        Heard {
            numbers: [0; MOST_EVENTS],
            differences: [0; MOST_EVENTS],
            indices: [0; MOST_EVENTS],
        }
    }

    // The receiver reads the samples. The lists are lent to it where they stand, since a copy of them takes longer than a short block.
    pub(crate) fn read(&mut self, receiver: Receiver, samples: &[i16]) -> Answered<Receiver, usize>
        ensures { outcome (as_answer result.answer) result.state ((self.new.numbers, self.new.differences), self.new.indices)
            ≡ indexed_of receiver samples.now ((self.old.numbers, self.old.differences), self.old.indices) }
    {
        receiver.block_indexed(
            samples,
            &mut self.numbers,
            &mut self.differences,
            &mut self.indices,
        )
    }

    // The first events, so many, each of which gets the band.
    pub(crate) fn events(&self, count: usize, band: u8) -> Events<'_>
        requires band { band ≤ 60 }
        requires count { count ≤ most_events }
        requires events { AreEvents (take count self.now.numbers) (take count self.now.differences) (take count self.now.indices) }
        ensures { result ≡ listed band (take count self.now.numbers) (take count self.now.differences) (take count self.now.indices) }
    {
        Events::new(
            band,
            &self.numbers[..count],
            &self.differences[..count],
            &self.indices[..count],
        )
    }
}
