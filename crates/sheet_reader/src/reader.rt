// The parts of a reading: the band, a first look at the lines of samples, and the samples.
ghost use Rattle.std.specs.Prelude.{◌≡◌, ◌≤◌, length, false, Some, MatchOption};
ghost use Rattle.calls.specs.Outcome.{over};
ghost use Rattle.calls.specs.Refusals.{refusal_number, first_of};
ghost use Rattle.sheet.specs.Calls.{samples_tests};
ghost use Rattle.sheet.specs.Parse.{is_headed, line_after, samples_in};
ghost use Rattle.sheet.specs.declared.Line.TheVariants.{Start};
ghost use Rattle.sheet_reader.specs.AsCoded.{IsHead, seen_of};

use crate::parse;
use calls::Refusal;
use sheet::Line;

// The band and the lines of samples, if the three lines above them are there, with any digit.
#[tactic(auto, using(crate::proofs::Head::heads))]
pub(crate) fn split(text: &[u8]) -> Option<(u8, &[u8])>
    ensures { MatchOption result (is_headed text.now ≡ false) (λ p. IsHead text.now p.0 p.1.now) }
{
    let digit = *text.get(5)?;
    if !text::starts_with(text, &sheet::head_of(digit)) || !digits::is_digit(digit) {
        return None;
    }
    Some((digit - b'0', &text[14..]))
}

// What a first look at the lines finds: how many samples they have, and whether all of these are in range.
#[derive(Clone, Copy)]
pub(crate) struct Seen {
    pub(crate) count: usize,
    pub(crate) sound: bool,
}

impl Seen {
    // The first pass over the lines: None if a sheet has no such lines.
    #[tactic(auto, using(crate::proofs::Passes::looked_start))]
    pub(crate) fn of(lines: &[u8]) -> Option<Seen>
        ensures { result ≡ seen_of lines.now }
    {
        let mut line = Line::Start;
        let mut count = 0;
        let mut sound = true;
        for &byte in lines {
            if byte == b'\n' {
                count += 1;
                sound &= tones::are_samples(&[parse::sample_of(line)]);
            }
            line = parse::next(line, byte)?;
        }
        if line != Line::Start {
            return None;
        }
        Some(Seen { count, sound })
    }

    // The first reason to refuse a sheet of this band with these lines, of which `room` samples have a place.
    pub(crate) fn check(self, band: u8, room: usize) -> Result<(), Refusal>
        ensures { refusal_number result ≡ first_of (samples_tests band self.count self.sound room) }
    {
        if !tones::is_band(band) {
            return Err(Refusal::UnknownBand);
        }
        if self.count > tones::MOST_SAMPLES {
            return Err(Refusal::TooMany);
        }
        if !self.sound {
            return Err(Refusal::SampleOutOfRange);
        }
        if self.count > room {
            return Err(Refusal::TooFewPlaces);
        }
        Ok(())
    }
}

// The second pass: puts the samples at the buffer's front.
#[tactic(auto, using(crate::proofs::Passes::fills))]
pub(crate) fn fill(lines: &[u8], out: &mut [i16])
    requires ended { line_after (Some Start) lines.now ≡ Some Start }
    requires room { length (samples_in (Some Start) lines.now) ≤ length out.old }
    ensures { out.new ≡ over (samples_in (Some Start) lines.now) out.old }
{
    let mut line = Line::Start;
    let mut count = 0;
    for &byte in lines {
        if byte == b'\n' {
            out[count] = parse::sample_of(line);
            count += 1;
        }
        line = parse::next(line, byte).unwrap();
    }
}
