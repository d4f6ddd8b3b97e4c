// Writing a sheet. Band, samples and room are judged first, so that a refusal writes to no buffer.
#![tactic(auto)]

ghost use Rattle.std.specs.Prelude.{◌≡◌};
ghost use Rattle.calls.specs.Outcome.{as_answer, outcome};
ghost use Rattle.sheet.specs.Calls.{write_of};

mod writer;

use calls::Refusal;

// Writes the sheet of a band and samples to the buffer's front, and gives its length.
#[tactic(auto, using(crate::proofs::Writing::sheets))]
pub fn write(band: u8, samples: &[i16], out: &mut [u8]) -> Result<usize, Refusal>
    ensures { outcome (as_answer result) tt out.new ≡ write_of band samples.now out.old }
{
    writer::check(band, samples, out.len())?;
    calls::put(out, 0, &sheet::head_of(b'0' + band));
    Ok(writer::put_lines(out, samples))
}
