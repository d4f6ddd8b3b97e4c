// The program `modulate` as a function from bytes to bytes. What is printed goes to the front of a buffer in which every answer
// has room, and its length is given.
#![tactic(auto)]

ghost use Rattle.std.specs.Prelude.{◌≡◌, length};
ghost use Rattle.calls.specs.Outcome.{as_answer, outcome, over};
ghost use Rattle.printing.specs.Printing.{Front};
ghost use Rattle.modulator.specs.Modulate.{sheet_call, sending_of, modulated};

use calls::Refusal;
use printing::put_refusal;
use sheet::MOST_BYTES;

// How much of its input the program reads: a digit, the characters of one call, and one byte more, so that a message that is too long is
// refused.
pub const MOST_INPUT: usize = transmitter::MOST_CHARACTERS + 2;

// The places that the longest message needs.
const MOST_SENT: usize = 192 + 320 * transmitter::MOST_CHARACTERS;

// A band digit and characters to the sheet of leader, characters and trailer.
#[tactic(auto, using(crate::proofs::Cases::by_first))]
pub fn modulate(input: &[u8], out: &mut [u8; MOST_BYTES]) -> usize
    ensures count { result ≡ length (modulated input.now) }
    ensures lent { out.new ≡ over (modulated input.now) out.old }
    ensures front { Front result out.new }
{
    match input.split_first() {
        Some((&first, bytes)) if digits::is_digit(first) => put_sheet(first - b'0', bytes, out),
        _ => put_refusal(out, Refusal::UnknownBand.into()),
    }
}

// The sheet of a message or the lines of its refusal over the buffer's front, and their length.
fn put_sheet(band: u8, bytes: &[u8], out: &mut [u8; MOST_BYTES]) -> usize
    ensures count { result ≡ length (sending_of band bytes.now) }
    ensures lent { out.new ≡ over (sending_of band bytes.now) out.old }
{
    match write(band, bytes, out) {
        Ok(count) => count,
        Err(refusal) => put_refusal(out, refusal.into()),
    }
}

// The sheet of a message at the buffer's front. What refuses the message or the sheet refuses the call.
fn write(band: u8, bytes: &[u8], out: &mut [u8; MOST_BYTES]) -> Result<usize, Refusal>
    ensures { outcome (as_answer result) tt out.new ≡ sheet_call band bytes.now out.old }
{
    let mut samples = [0i16; MOST_SENT];
    let count = message::send(band, bytes, &mut samples)?;
    sheet_writer::write(band, &samples[..count], out)
}
