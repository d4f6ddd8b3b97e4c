// The exports of `receiving`: each calls the function of its name, and states its contract again. They are a crate of their own,
// since one that exports is no library for other crates.
#![tactic(auto)]

ghost use Rattle.std.specs.Prelude.{◌≡◌};
ghost use Rattle.calls.specs.Outcome.{answer_of, outcome};
ghost use Rattle.receiver.specs.Calls.{open_of};
ghost use Rattle.receiving.specs.Numbers.{opened_numbers, block_numbers, indexed_numbers};

use receiving::{Block, Opening, State};

// Opens a band.
#[unsafe(no_mangle)]
pub extern "C" fn modem_receiver_open(band: u8) -> Opening
    ensures { result ≡ opened_numbers (open_of band) }
{
    receiving::modem_receiver_open(band)
}

// Reads a block of samples.
#[unsafe(no_mangle)]
pub extern "C" fn modem_receiver_block(
    receiver: State,
    samples: &[i16],
    events: &mut [u16],
    differences: &mut [i64],
) -> Block
    ensures { outcome (answer_of result.number result.count) result.receiver (events.new, differences.new)
        ≡ block_numbers receiver samples.now (events.old, differences.old) }
{
    receiving::modem_receiver_block(receiver, samples, events, differences)
}

// The same, and with which sample of the block each event came.
#[unsafe(no_mangle)]
pub extern "C" fn modem_receiver_block_indexed(
    receiver: State,
    samples: &[i16],
    events: &mut [u16],
    differences: &mut [i64],
    indices: &mut [u16],
) -> Block
    ensures { outcome (answer_of result.number result.count) result.receiver ((events.new, differences.new), indices.new)
        ≡ indexed_numbers receiver samples.now ((events.old, differences.old), indices.old) }
{
    receiving::modem_receiver_block_indexed(receiver, samples, events, differences, indices)
}

// Exported for the tests alone, and in no header: the receiver's second entry, which is compared with the first.
#[unsafe(no_mangle)]
pub extern "C" fn modem_test_block_lent(
    receiver: State,
    samples: &[i16],
    events: &mut [u16],
    differences: &mut [i64],
) -> Block
    ensures { outcome (answer_of result.number result.count) result.receiver (events.new, differences.new)
        ≡ block_numbers receiver samples.now (events.old, differences.old) }
{
    receiving::testing::modem_test_block_lent(receiver, samples, events, differences)
}
