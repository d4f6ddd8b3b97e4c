// The receiver for programs in other languages, which `receiving_c` exports. A state is handed in, and handed back, as a struct of numbers, by
// value.
#![tactic(auto)]

ghost use Rattle.std.specs.Prelude.{◌≡◌};
ghost use Rattle.calls.specs.Outcome.{answer_of, opened, outcome};
ghost use Rattle.receiver.specs.Calls.{open_of};
ghost use Rattle.receiving.specs.Numbers.{receiver_of, numbers_of, opened_numbers, reading_numbers, block_numbers, indexed_numbers};

pub mod testing;

use calls::Answered;
use control::Stage;
use receiver::Receiver;

// A receiver's state as numbers. Stage 0 is searching, stage 1 is waiting, with its wait, slot and byte, and stage 2 is a held break; where
// a call gives 0 or 2, these three are 0. Any other stage is out of its range. Where `measured` is 1, `smallest` is the smallest difference so
// far; where it is 0 there is none, and a call gives 0 for both. Any other number of it is out of its range.
// The stage and the smallest difference are numbers here, since C has no enum with fields and no `Option`.
#[repr(C)]
#[derive(Clone, Copy)]
pub struct State {
    pub band: u8,
    pub window: [i16; 32],
    pub run: u8,
    pub stage: u8,
    pub wait: u8,
    pub slot: u8,
    pub byte: u8,
    pub measured: u8,
    pub smallest: i64,
}

// What an opening answers: the number, and the fresh state of the band, or of band 1 if it is refused. A number, since C has no `Result`.
#[repr(C)]
#[derive(Clone, Copy)]
pub struct Opening {
    pub number: u8,
    pub receiver: State,
}

// What a block call answers: the next state, the number, and the count of events. Two numbers, since C has no `Result`; and the tap's call
// has a struct of its own, since one with a type parameter cannot be handed to C.
#[repr(C)]
#[derive(Clone, Copy)]
pub struct Block {
    pub receiver: State,
    pub number: u8,
    pub count: usize,
}

// Opens a band.
pub fn modem_receiver_open(band: u8) -> Opening
    ensures { result ≡ opened_numbers (open_of band) }
{
    Receiver::open(band).into()
}

// Reads a block of samples: the numbers of its events go to `events`, and the difference of each to its place in `differences`. A refused call
// gives back the state as it was handed, even where its numbers are not those that a call gives for it.
pub fn modem_receiver_block(
    receiver: State,
    samples: &[i16],
    events: &mut [u16],
    differences: &mut [i64],
) -> Block
    ensures { outcome (answer_of result.number result.count) result.receiver (events.new, differences.new)
        ≡ block_numbers receiver samples.now (events.old, differences.old) }
{
    let reading = Receiver::from(receiver).block(samples, events, differences);
    Block::new(reading, receiver)
}

// The same, and with which sample of the block each event came: its index goes to the event's place in `indices`.
pub fn modem_receiver_block_indexed(
    receiver: State,
    samples: &[i16],
    events: &mut [u16],
    differences: &mut [i64],
    indices: &mut [u16],
) -> Block
    ensures { outcome (answer_of result.number result.count) result.receiver ((events.new, differences.new), indices.new)
        ≡ indexed_numbers receiver samples.now ((events.old, differences.old), indices.old) }
{
    let reading = Receiver::from(receiver).block_indexed(samples, events, differences, indices);
    Block::new(reading, receiver)
}

impl From<Answered<Receiver, ()>> for Opening {
    ghost from_gives = { λ a n. n ≡ opened_numbers (opened a) };

    fn from(opening: Answered<Receiver, ()>) -> Opening {
        Opening {
            number: opening.answer.err().map_or(0, u8::from),
            receiver: opening.state.into(),
        }
    }
}

impl Block {
    // What a block call on a state hands back, from what an entry of the receiver gave: the next state if it was accepted, and the state as
    // it was handed if not.
    fn new(reading: Answered<Receiver, usize>, handed: State) -> Block
        ensures { result ≡ reading_numbers reading handed }
    {
        match reading.answer {
            Ok(count) => Block {
                receiver: reading.state.into(),
                number: 0,
                count,
            },
            Err(refusal) => Block {
                receiver: handed,
                number: refusal.into(),
                count: 0,
            },
        }
    }
}

// The state of its numbers. A stage number above 2 gives no stage in its ranges, and a `measured` above 1 a negative difference, so that a call
// refuses either: every number has a state by `receiver_of`, so this is no `TryFrom`.
impl From<State> for Receiver {
    ghost from_gives = { λ n s. s ≡ receiver_of n };

    fn from(n: State) -> Receiver {
        let window = n.window;
        let stage = match n.stage {
            0 => Stage::Searching,
            1 => Stage::Waiting {
                wait: n.wait,
                slot: n.slot,
                byte: n.byte,
            },
            2 => Stage::Held,
            _ => Stage::Waiting {
                wait: 0,
                slot: 0,
                byte: 0,
            },
        };
        let smallest = match n.measured {
            0 => None,
            1 => Some(n.smallest),
            _ => Some(-1),
        };
        Receiver {
            window,
            band: n.band,
            run: n.run,
            stage,
            smallest,
        }
    }
}

// The numbers of a state.
impl From<Receiver> for State {
    ghost from_gives = { λ s n. n ≡ numbers_of s };

    fn from(s: Receiver) -> State {
        let window = s.window;
        let (stage, wait, slot, byte) = match s.stage {
            Stage::Searching => (0, 0, 0, 0),
            Stage::Waiting { wait, slot, byte } => (1, wait, slot, byte),
            Stage::Held => (2, 0, 0, 0),
        };
        let (measured, smallest) = match s.smallest {
            None => (0, 0),
            Some(least) => (1, least),
        };
        State {
            band: s.band,
            window,
            run: s.run,
            stage,
            wait,
            slot,
            byte,
            measured,
            smallest,
        }
    }
}
