// Writing: what a band and samples are refused with, and the lines of those that are not.
ghost use Rattle.std.specs.Prelude.{◌≡◌, [], ◌∷◌, ◌++◌, ◌+◌, ◌*◌, ◌^◌, ◌<◌, ◌≤◌, length, sum_by};
ghost use Rattle.std.proofs.lemmas.List.Edits.{sets};
ghost use Rattle.calls.specs.Refusals.{refusal_number, first_of};
ghost use Rattle.tones.specs.Samples.{most_samples};
ghost use Rattle.digits.specs.Numbers.{decimal};
ghost use Rattle.sheet.specs.Text.{line_of, lines_of};
ghost use Rattle.sheet.specs.Calls.{most_bytes, write_tests};

use calls::Refusal;

// The first reason to refuse.
#[tactic(auto, using(crate::proofs::Lengths::lengths))]
pub(crate) fn check(band: u8, samples: &[i16], room: usize) -> Result<(), Refusal>
    ensures { refusal_number result ≡ first_of (write_tests band samples.now room) }
{
    if !tones::is_band(band) {
        return Err(Refusal::UnknownBand);
    }
    if samples.len() > tones::MOST_SAMPLES {
        return Err(Refusal::TooMany);
    }
    if !tones::are_samples(samples) {
        return Err(Refusal::SampleOutOfRange);
    }
    let n = 14 + lines_len(samples);
    if n > sheet::MOST_BYTES {
        return Err(Refusal::SheetTooLong);
    }
    if n > room {
        return Err(Refusal::TooFewPlaces);
    }
    Ok(())
}

// A line for each sample, behind the three above them. Gives the length of the whole sheet. The place is counted by hand, since the lines
// differ in length.
#[tactic(auto, using(crate::proofs::Writing::lines))]
pub(crate) fn put_lines(out: &mut [u8], samples: &[i16]) -> usize
    requires { 14 + length (lines_of samples.now) ≤ most_bytes }
    ensures count { result ≡ 14 + length (lines_of samples.now) }
    ensures lent { out.new ≡ sets out.old 14 (lines_of samples.now) }
{
    let mut at = 14;
    for &sample in samples {
        at += put_line(out, at, sample);
    }
    at
}

// Puts the line of a sample from the place `at` on, and gives its length: a minus if it is negative, the digits, and the line feed. Each
// goes to its place by itself, since a line that is made apart and then copied takes twice the time.
#[tactic(auto, using(crate::proofs::Writing::signs))]
fn put_line(out: &mut [u8], at: usize, sample: i16) -> usize
    requires { at ≤ most_bytes }
    ensures count { result ≡ length (line_of sample) }
    ensures lent { out.new ≡ sets out.old at (line_of sample) }
{
    let size = digits::magnitude(sample);
    if sample < 0 {
        calls::put(out, at, b"-");
        return 1 + put_number(out, at + 1, size);
    }
    put_number(out, at, size)
}

// A number and a line feed likewise.
#[tactic(auto, using(crate::proofs::Writing::number))]
fn put_number(out: &mut [u8], at: usize, n: u16) -> usize
    requires { at ≤ most_bytes + 1 }
    ensures count { result ≡ length (decimal n ++ (10 ∷ [])) }
    ensures lent { out.new ≡ sets out.old at (decimal n ++ (10 ∷ [])) }
{
    let digits = text::put_decimal(out, at, n);
    calls::put(out, at + digits, b"\n");
    digits + 1
}

// The length of all lines.
fn lines_len(samples: &[i16]) -> usize
    requires { sum_by (λ z. length (line_of z)) samples.now < 2 ^ 64 }
    ensures { result ≡ sum_by (λ z. length (line_of z)) samples.now }
{
    samples.iter().map(|&sample| line_len(sample)).sum()
}

// The length of a sample's line.
#[tactic(auto, using(crate::proofs::Lengths::by_digits), unfolding(sheet::specs::Text::line_of))]
fn line_len(sample: i16) -> usize
    ensures { result ≡ length (line_of sample) }
{
    let digits = digits::count(digits::magnitude(sample));
    if sample < 0 { digits + 2 } else { digits + 1 }
}
