// The program `demodulate` as a function from bytes to bytes. What is printed goes to the front of a buffer in which every answer
// has room, and its length is given.
#![tactic(auto)]

ghost use Rattle.std.specs.Prelude.{◌≡◌, length};
ghost use Rattle.calls.specs.Outcome.{over};
ghost use Rattle.printing.specs.Printing.{Front};
ghost use Rattle.demodulator.specs.Demodulate.{demodulated};

use printing::put_refusal;

mod events;
mod lines;

// The most bytes of its input that a program needs to read: one more than a sheet has, so that a sheet that is too long is refused.
pub const MOST_INPUT: usize = sheet::MOST_BYTES + 1;

// The most bytes that are printed: the names line, and for each event a line of at most 14 bytes.
pub const MOST_PRINTED: usize = 18 + 14 * receiver::MOST_EVENTS;

// A sheet to the lines of its events.
pub fn demodulate(text: &[u8], out: &mut [u8; MOST_PRINTED]) -> usize
    ensures count { result ≡ length (demodulated text.now) }
    ensures lent { out.new ≡ over (demodulated text.now) out.old }
    ensures front { Front result out.new }
{
    let mut samples = [0i16; tones::MOST_SAMPLES];
    match sheet_reader::read(text, &mut samples) {
        Ok(sheet) => events::put_events_of(sheet.band, &samples[..sheet.count], out),
        Err(refusal) => put_refusal(out, refusal.into()),
    }
}
