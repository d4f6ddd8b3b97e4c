// The tap for programs in other languages, which `tapping_c` exports. A state is handed in, and handed back, as the numbers of its two
// receivers, by value.
#![tactic(auto)]

ghost use Rattle.std.specs.Prelude.{◌≡◌};
ghost use Rattle.calls.specs.Outcome.{answer_of, opened, outcome};
ghost use Rattle.tap.specs.Calls.{open_of};
ghost use Rattle.tapping.specs.Numbers.{tap_of, tap_numbers, opened_numbers, reading_numbers, block_numbers};

use calls::Answered;
use receiver::Receiver;
use receiving::State;
use tap::Tap;

// The receivers of bands 1 and 2, or of 3 and 4.
#[repr(C)]
#[derive(Clone, Copy)]
pub struct Taps {
    pub first: State,
    pub second: State,
}

// What an opening answers: the number, and the fresh tap of the bands, or of 1 and 2 if it is refused. A number, since C has no `Result`.
#[repr(C)]
#[derive(Clone, Copy)]
pub struct TapOpening {
    pub number: u8,
    pub tap: Taps,
}

// What a block call answers: the next state, the number, and the count of events. Two numbers, since C has no `Result`; a struct beside the
// receiver's, since one with a type parameter cannot be handed to C.
#[repr(C)]
#[derive(Clone, Copy)]
pub struct TapBlock {
    pub tap: Taps,
    pub number: u8,
    pub count: usize,
}

// Opens a pair of bands.
pub fn modem_tap_open(first: u8, second: u8) -> TapOpening
    ensures { result ≡ opened_numbers (open_of first second) }
{
    Tap::open(first, second).into()
}

// Reads a block of samples with both receivers, with the difference of each event beside its number. A refused call gives back the state as it
// was handed.
pub fn modem_tap_block(
    tap: Taps,
    samples: &[i16],
    events: &mut [u16],
    differences: &mut [i64],
) -> TapBlock
    ensures { outcome (answer_of result.number result.count) result.tap (events.new, differences.new)
        ≡ block_numbers tap samples.now (events.old, differences.old) }
{
    let reading = Tap::from(tap).block(samples, events, differences);
    TapBlock::new(reading, tap)
}

impl From<Answered<Tap, ()>> for TapOpening {
    ghost from_gives = { λ a n. n ≡ opened_numbers (opened a) };

    fn from(opening: Answered<Tap, ()>) -> TapOpening {
        TapOpening {
            number: opening.answer.err().map_or(0, u8::from),
            tap: opening.state.into(),
        }
    }
}

impl TapBlock {
    // What a block call on a state hands back: the next state if it was accepted, and the state as it was handed if not.
    fn new(reading: Answered<Tap, usize>, handed: Taps) -> TapBlock
        ensures { result ≡ reading_numbers reading handed }
    {
        match reading.answer {
            Ok(count) => TapBlock {
                tap: reading.state.into(),
                number: 0,
                count,
            },
            Err(refusal) => TapBlock {
                tap: handed,
                number: refusal.into(),
                count: 0,
            },
        }
    }
}

// The state of its numbers.
impl From<Taps> for Tap {
    ghost from_gives = { λ n t. t ≡ tap_of n };

    fn from(n: Taps) -> Tap {
        Tap {
            first: Receiver::from(n.first),
            second: Receiver::from(n.second),
        }
    }
}

// The numbers of a state.
impl From<Tap> for Taps {
    ghost from_gives = { λ t n. n ≡ tap_numbers t };

    fn from(t: Tap) -> Taps {
        Taps {
            first: State::from(t.first),
            second: State::from(t.second),
        }
    }
}
