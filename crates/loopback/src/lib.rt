// A message sent, disturbed and read back in one call: the promise, met by code. What is read is what was sent, for every message
// of at most 100 bytes, every disturbance of at most 100 at each sample, and every size of the blocks.
#![tactic(auto)]

ghost use Rattle.std.specs.Prelude.{◌≡◌, ◌≤◌};
ghost use Rattle.calls.specs.Refusals.{refusal_number, first_of};
ghost use Rattle.calls.specs.Outcome.{as_answer, outcome};
ghost use Rattle.transmitter.specs.Calls.{most_characters};
ghost use Rattle.loopback.specs.Loopback.{lists, is_size, is_room, loopback_tests, loopback_of};

mod disturb;
mod receive;

use calls::Refusal;
use tones::MOST_SAMPLES;
use transmitter::MOST_CHARACTERS;

// The most that is added to a sample, either way.
pub const DISTURBANCE: i16 = 100;

// Sends leader, characters and trailer in a band, adds the numbers of `disturbance` sample by sample, and reads the result in
// blocks of `size` through the receiver's second entry. The samples as they were read, the events and their differences go to the caller's
// buffers: lists apart, as the specification lends them. It gives the count of events.
#[tactic(auto, using(crate::proofs::Refusals::loopback_refused))]
pub fn loopback(
    band: u8,
    characters: &[u8],
    disturbance: &[i16],
    size: usize,
    samples: &mut [i16],
    events: &mut [u16],
    differences: &mut [i64],
) -> Result<usize, Refusal>
    ensures { outcome (as_answer result) tt (lists samples.new events.new differences.new)
        ≡ loopback_of band characters.now disturbance.now size
        (lists samples.old events.old differences.old) }
{
    check(
        band,
        characters.len(),
        disturbance,
        size,
        samples.len(),
        events.len(),
        differences.len(),
    )?;
    let end = message::send(band, characters, samples)?;
    disturb::disturb(&mut samples[..end], disturbance);
    Ok(receive::receive(band, &samples[..end], size, events, differences))
}

// The first reason to refuse. Of the buffers it takes the lengths, one by one, as `loopback_tests` does.
fn check(
    band: u8,
    characters: usize,
    disturbance: &[i16],
    size: usize,
    samples: usize,
    events: usize,
    differences: usize,
) -> Result<(), Refusal>
    ensures { refusal_number result ≡ first_of (loopback_tests band characters disturbance.now size samples events differences) }
{
    if !tones::is_band(band) {
        Err(Refusal::UnknownBand)
    } else if !is_size(characters, size) {
        Err(Refusal::TooMany)
    } else if !tones::are_between(disturbance, -DISTURBANCE, DISTURBANCE) {
        Err(Refusal::SampleOutOfRange)
    } else if !is_room(characters, disturbance.len(), samples, events, differences) {
        Err(Refusal::TooFewPlaces)
    } else {
        Ok(())
    }
}

// As many characters as one call takes, and blocks of 1 to 16,384 samples.
fn is_size(characters: usize, size: usize) -> bool
    ensures { result ≡ is_size characters size }
{
    characters <= MOST_CHARACTERS && (1..=MOST_SAMPLES).contains(&size)
}

// A number for each sample, and a place for each sample, each event and each difference: numbers, as `is_room` of the definitions takes them.
fn is_room(
    characters: usize,
    disturbance: usize,
    samples: usize,
    events: usize,
    differences: usize,
) -> bool
    requires { characters ≤ most_characters }
    ensures { result ≡ is_room characters disturbance samples events differences }
{
    let n = 192 + 320 * characters;
    n <= disturbance && n <= samples && characters <= events && characters <= differences
}
