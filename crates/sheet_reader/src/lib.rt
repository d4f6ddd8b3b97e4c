// Reading a sheet. The whole text is judged first, so that a refusal writes to no buffer.
#![tactic(auto)]

ghost use Rattle.std.specs.Prelude.{◌≡◌};
ghost use Rattle.sheet.specs.Calls.{read_of};
ghost use Rattle.sheet_reader.specs.Reading.{reading};

mod parse;
mod reader;

use calls::Refusal;
use reader::Seen;

// What is read: the band and the count of samples.
#[derive(Clone, Copy, Debug, PartialEq, Eq)]
pub struct Sheet {
    pub band: u8,
    pub count: usize,
}

// Reads a sheet. Its samples go to the buffer's front. Inlined, since a caller for C then takes the number of a refusal without a `Result` in
// memory.
#[tactic(auto, using(crate::proofs::Judged::judgements))]
#[inline(always)]
pub fn read(text: &[u8], out: &mut [i16]) -> Result<Sheet, Refusal>
    ensures { reading result out.new ≡ read_of text.now out.old }
{
    if text.len() > sheet::MOST_BYTES {
        return Err(Refusal::SheetTooLong);
    }
    let (band, lines) = reader::split(text).ok_or(Refusal::NotASheet)?;
    let seen = Seen::of(lines).ok_or(Refusal::NotASheet)?;
    seen.check(band, out.len())?;
    reader::fill(lines, out);
    Ok(Sheet {
        band,
        count: seen.count,
    })
}
