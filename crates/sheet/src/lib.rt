// What a sheet is: a band and its samples as text. Here are its greatest length, the places of a reading, and the lines above the
// samples; `sheet_reader` reads sheets, and `sheet_writer` writes them.
#![tactic(auto)]

ghost use Rattle.std.specs.Prelude.{◌≡◌};
ghost use Rattle.sheet.specs.Text.{head_of};

// The most bytes of a sheet.
pub const MOST_BYTES: usize = 65536;

// Where the reading stands in a sample's line: before its first byte, behind a minus, behind the line's only 0, or in a number.
#[derive(Clone, Copy, Debug, PartialEq, Eq)]
pub enum Line {
    Start,
    Minus,
    Zero,
    Number { negative: bool, size: u16 },
}

// The three lines above the samples.
#[tactic(auto, unfolding(crate::specs::Text::head_of))]
pub fn head_of(digit: u8) -> [u8; 14]
    ensures { result ≡ head_of digit }
{
    let mut head = *b"band\n0\nsample\n";
    head[5] = digit;
    head
}
