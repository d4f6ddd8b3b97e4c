// A whole message, and one that is sent, disturbed and read back, for programs in other languages.
#![tactic(auto)]

ghost use Rattle.std.specs.Prelude.{◌≡◌};
ghost use Rattle.calls.specs.Outcome.{outcome};
ghost use Rattle.message.specs.Message.{send_of};
ghost use Rattle.loopback.specs.Loopback.{lists, loopback_of};

use calls::Answer;

// Sends leader, characters and trailer in a band.
#[unsafe(no_mangle)]
pub extern "C" fn modem_message_send(band: u8, bytes: &[u8], out: &mut [i16]) -> Answer
    ensures { outcome result tt out.new ≡ send_of band bytes.now out.old }
{
    message::send(band, bytes, out).into()
}

// Sends a message, adds the numbers of `disturbance` sample by sample, and reads the result in blocks of `block` samples.
#[unsafe(no_mangle)]
pub extern "C" fn modem_loopback(
    band: u8,
    bytes: &[u8],
    disturbance: &[i16],
    block: usize,
    samples: &mut [i16],
    events: &mut [u16],
    differences: &mut [i64],
) -> Answer
    ensures { outcome result tt (lists samples.new events.new differences.new)
        ≡ loopback_of band bytes.now disturbance.now block
        (lists samples.old events.old differences.old) }
{
    loopback::loopback(
        band,
        bytes,
        disturbance,
        block,
        samples,
        events,
        differences,
    )
    .into()
}
