// The events of samples, read by a fresh receiver and printed. Their differences are not printed.
ghost use Rattle.std.specs.Prelude.{◌≡◌, true, ◌≤◌, length};
ghost use Rattle.tones.specs.Bands.{is_band};
ghost use Rattle.tones.specs.Samples.{most_samples, are_samples};
ghost use Rattle.receiver.specs.Step.{events_after};
ghost use Rattle.receiver.specs.Calls.{fresh};
ghost use Rattle.calls.specs.Outcome.{over};
ghost use Rattle.demodulator.specs.Lines.{events_text};

use crate::MOST_PRINTED;
use crate::lines::put_events;
use receiver::Receiver;

// The lines of the samples' events over the buffer's front, and their length. Two lists are lent, since `Receiver::block` fills two.
pub(crate) fn put_events_of(band: u8, samples: &[i16], out: &mut [u8; MOST_PRINTED]) -> usize
    requires band { is_band band ≡ true }
    requires few { length samples.now ≤ most_samples }
    requires sound { are_samples samples.now ≡ true }
    ensures count { result ≡ length (events_text (events_after (fresh band) samples.now)) }
    ensures lent { out.new ≡ over (events_text (events_after (fresh band) samples.now)) out.old }
{
    let fresh = Receiver::open(band).state;
    let mut events = [0u16; receiver::MOST_EVENTS];
    let mut differences = [0i64; receiver::MOST_EVENTS];
    let reading = fresh.block(samples, &mut events, &mut differences);
    let count = reading.answer.unwrap();
    put_events(out, &events[..count])
}
