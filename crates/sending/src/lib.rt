// The transmitter's calls for programs in other languages. A state goes in and comes back by value, as in Rattle.
#![tactic(auto)]

ghost use Rattle.std.specs.Prelude.{◌≡◌};
ghost use Rattle.calls.specs.Outcome.{opened, opening_of, answer_of, as_answer, outcome};
ghost use Rattle.transmitter.specs.Calls.{open_of, idle_of, characters_of};

use calls::{Answer, Answered};
use transmitter::Transmitter;

// What an opening answers: 0 and the fresh state, or the number of a refusal and the fresh state of band 1. A number, since C has no `Result`.
#[repr(C)]
#[derive(Clone, Copy)]
pub struct Opened {
    pub number: u8,
    pub transmitter: Transmitter,
}

impl From<Answered<Transmitter, ()>> for Opened {
    ghost from_gives = { λ r c. opening_of c.number c.transmitter ≡ opened r };

    fn from(opened: Answered<Transmitter, ()>) -> Opened {
        Opened {
            number: opened.answer.err().map_or(0, u8::from),
            transmitter: opened.state,
        }
    }
}

// What a sending call answers: the next state, and number and count of samples as fields of their own. Two numbers, since C has no `Result`.
#[repr(C)]
#[derive(Clone, Copy)]
pub struct Sending {
    pub transmitter: Transmitter,
    pub number: u8,
    pub count: usize,
}

impl From<Answered<Transmitter, usize>> for Sending {
    ghost from_gives = { λ r c. (c.transmitter ≡ r.state) × (answer_of c.number c.count ≡ as_answer r.answer) };

    fn from(sent: Answered<Transmitter, usize>) -> Sending {
        let answer = Answer::from(sent.answer);
        Sending {
            transmitter: sent.state,
            number: answer.number,
            count: answer.count,
        }
    }
}

// The fresh state of a band.
#[unsafe(no_mangle)]
pub extern "C" fn modem_transmitter_open(band: u8) -> Opened
    ensures { opening_of result.number result.transmitter ≡ open_of band }
{
    Transmitter::open(band).into()
}

// Sends three mark bits.
#[unsafe(no_mangle)]
pub extern "C" fn modem_transmitter_idle(transmitter: Transmitter, out: &mut [i16]) -> Sending
    ensures { outcome (answer_of result.number result.count) result.transmitter out.new ≡ idle_of transmitter out.old }
{
    transmitter.idle(out).into()
}

// Sends bytes as characters.
#[unsafe(no_mangle)]
pub extern "C" fn modem_transmitter_characters(
    transmitter: Transmitter,
    bytes: &[u8],
    out: &mut [i16],
) -> Sending
    ensures { outcome (answer_of result.number result.count) result.transmitter out.new
        ≡ characters_of transmitter bytes.now out.old }
{
    transmitter.characters(bytes, out).into()
}
