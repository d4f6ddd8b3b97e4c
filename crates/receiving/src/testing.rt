// Exported for the tests alone, and in no header: the receiver's second entry, which is compared with the first.
ghost use Rattle.std.specs.Prelude.{◌≡◌};
ghost use Rattle.calls.specs.Outcome.{answer_of, outcome};
ghost use Rattle.receiving.specs.Numbers.{block_numbers};

use crate::{Block, State};
use receiver::Receiver;

// Reads a block of samples through the receiver's second entry, to which the state is lent.
pub fn modem_test_block_lent(
    receiver: State,
    samples: &[i16],
    events: &mut [u16],
    differences: &mut [i64],
) -> Block
    ensures { outcome (answer_of result.number result.count) result.receiver (events.new, differences.new)
        ≡ block_numbers receiver samples.now (events.old, differences.old) }
{
    let reading = lent::block_by_value(Receiver::from(receiver), samples, events, differences);
    Block::new(reading, receiver)
}
