// The receiver's second entry, the specification's thin one above the core: it takes the state lent and leaves the next state in it.
#![tactic(auto)]

ghost use Rattle.std.specs.Prelude.{◌≡◌};
ghost use Rattle.calls.specs.Outcome.{as_answer, outcome};
ghost use Rattle.receiver.specs.Calls.{block_of};

use calls::{Answered, Refusal};
use receiver::Receiver;

// Reads a block of samples: the state is lent, and the next one is left in its place.
pub fn block(
    receiver: &mut Receiver,
    samples: &[i16],
    events: &mut [u16],
    differences: &mut [i64],
) -> Result<usize, Refusal>
    ensures { outcome (as_answer result) receiver.new (events.new, differences.new)
        ≡ block_of receiver.old samples.now (events.old, differences.old) }
{
    let reading = receiver.block(samples, events, differences);
    *receiver = reading.state;
    reading.answer
}

// The same entry for callers that hold the state by value: it lends the state that it is handed.
pub fn block_by_value(
    receiver: Receiver,
    samples: &[i16],
    events: &mut [u16],
    differences: &mut [i64],
) -> Answered<Receiver, usize>
    ensures { outcome (as_answer result.answer) result.state (events.new, differences.new)
        ≡ block_of receiver samples.now (events.old, differences.old) }
{
    let mut state = receiver;
    let answer = block(&mut state, samples, events, differences);
    Answered { state, answer }
}
