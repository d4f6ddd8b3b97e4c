// Sheets read and written for programs in other languages.
#![tactic(auto)]

ghost use Rattle.std.specs.Prelude.{◌≡◌, List, ℤ};
ghost use Rattle.calls.specs.Outcome.{answer_of, outcome};
ghost use Rattle.sheet_reader.specs.Reading.{reading};
ghost use Rattle.sheet.specs.Calls.{read_of, write_of};

use calls::{Answer, Refusal};

// What a reading answers: the number, the band, 0 for a refusal, and the count of samples. Numbers, since C has no `Result`.
#[repr(C)]
#[derive(Clone, Copy)]
pub struct Sheet {
    pub number: u8,
    pub band: u8,
    pub count: usize,
}

impl From<Result<sheet_reader::Sheet, Refusal>> for Sheet {
    ghost from_gives = { λ r sheet. (lent : List ℤ) → outcome (answer_of sheet.number sheet.count) sheet.band lent ≡ reading r lent };

    fn from(read: Result<sheet_reader::Sheet, Refusal>) -> Sheet {
        match read {
            Ok(sheet) => Sheet {
                number: 0,
                band: sheet.band,
                count: sheet.count,
            },
            Err(refusal) => Sheet {
                number: refusal.into(),
                band: 0,
                count: 0,
            },
        }
    }
}

// Reads a sheet. Its samples go to the buffer's front.
#[unsafe(no_mangle)]
pub extern "C" fn modem_sheet_read(text: &[u8], samples: &mut [i16]) -> Sheet
    ensures { outcome (answer_of result.number result.count) result.band samples.new ≡ read_of text.now samples.old }
{
    sheet_reader::read(text, samples).into()
}

// Writes the sheet of a band and samples to the buffer's front.
#[unsafe(no_mangle)]
pub extern "C" fn modem_sheet_write(band: u8, samples: &[i16], text: &mut [u8]) -> Answer
    ensures { outcome result tt text.new ≡ write_of band samples.now text.old }
{
    sheet_writer::write(band, samples, text).into()
}
