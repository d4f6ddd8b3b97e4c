// The exports of `tapping`: each calls the function of its name, and states its contract again. They are a crate of their own,
// since one that exports is no library for other crates.
#![tactic(auto)]

ghost use Rattle.std.specs.Prelude.{◌≡◌};
ghost use Rattle.calls.specs.Outcome.{answer_of, outcome};
ghost use Rattle.tap.specs.Calls.{open_of};
ghost use Rattle.tapping.specs.Numbers.{opened_numbers, block_numbers};

use tapping::{TapBlock, TapOpening, Taps};

// Opens a pair of bands.
#[unsafe(no_mangle)]
pub extern "C" fn modem_tap_open(first: u8, second: u8) -> TapOpening
    ensures { result ≡ opened_numbers (open_of first second) }
{
    tapping::modem_tap_open(first, second)
}

// Reads a block of samples with both receivers.
#[unsafe(no_mangle)]
pub extern "C" fn modem_tap_block(
    tap: Taps,
    samples: &[i16],
    events: &mut [u16],
    differences: &mut [i64],
) -> TapBlock
    ensures { outcome (answer_of result.number result.count) result.tap (events.new, differences.new)
        ≡ block_numbers tap samples.now (events.old, differences.old) }
{
    tapping::modem_tap_block(tap, samples, events, differences)
}
