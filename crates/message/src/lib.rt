// A message in one call: leader, characters and trailer to the front of a caller's buffer. All is judged before anything is written.
#![tactic(auto)]

ghost use Rattle.std.specs.Prelude.{◌≡◌};
ghost use Rattle.calls.specs.Refusals.{refusal_number, first_of};
ghost use Rattle.calls.specs.Outcome.{as_answer, outcome};
ghost use Rattle.message.specs.Message.{message_tests, send_of};

use calls::Refusal;
use transmitter::Transmitter;

// Sends a message from the fresh transmitter of a band. It gives the count of samples. Inlined, since a caller for C then takes the number of a
// refusal without a `Result` in memory.
#[tactic(auto, using(crate::proofs::Calls::send_refused))]
#[inline(always)]
pub fn send(band: u8, bytes: &[u8], out: &mut [i16]) -> Result<usize, Refusal>
    ensures { outcome (as_answer result) tt out.new ≡ send_of band bytes.now out.old }
{
    check(band, bytes.len(), out.len())?;
    let fresh = Transmitter::open(band).state;
    let begun = fresh.idle(out).state;
    let ended = begun.characters(bytes, &mut out[96..]).state;
    let end = 96 + 320 * bytes.len();
    ended.idle(&mut out[end..]);
    Ok(end + 96)
}

// The first reason to refuse.
fn check(band: u8, characters: usize, places: usize) -> Result<(), Refusal>
    ensures { refusal_number result ≡ first_of (message_tests band characters places) }
{
    if !tones::is_band(band) {
        Err(Refusal::UnknownBand)
    } else if transmitter::MOST_CHARACTERS < characters {
        Err(Refusal::TooMany)
    } else if places < 192 + 320 * characters {
        Err(Refusal::TooFewPlaces)
    } else {
        Ok(())
    }
}
