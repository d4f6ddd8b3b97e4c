// One line of a sample, byte by byte. Functions, not methods: the type `Line` belongs to the crate `sheet`, whose definitions need it.
ghost use Rattle.std.specs.Prelude.{◌≡◌, ◌<◌};
ghost use Rattle.sheet.specs.Parse.{next, sample_of};
ghost use Rattle.sheet_reader.specs.AsCoded.{Small};

use sheet::Line;

// Where the reading stands after one more byte, and None behind something that no line has. A number of 1,000 or more has four digits and
// takes no further one.
#[tactic(auto, unfolding(sheet::specs::Parse::next))]
pub(crate) fn next(line: Line, byte: u8) -> Option<Line>
    ensures { result ≡ next line byte }
{
    match (line, byte) {
        (Line::Start, b'-') => Some(Line::Minus),
        (Line::Start, b'0') => Some(Line::Zero),
        (Line::Start, b'1'..=b'9') => Some(Line::Number {
            negative: false,
            size: u16::from(byte - b'0'),
        }),
        (Line::Minus, b'1'..=b'9') => Some(Line::Number {
            negative: true,
            size: u16::from(byte - b'0'),
        }),
        (Line::Zero | Line::Number { .. }, b'\n') => Some(Line::Start),
        (Line::Number { negative, size }, b'0'..=b'9') if size < 1000 => Some(Line::Number {
            negative,
            size: size * 10 + u16::from(byte - b'0'),
        }),
        _ => None,
    }
}

// The sample of a line that ends here, and 0 where none can end.
#[tactic(auto, unfolding(sheet::specs::Parse::sample_of))]
pub(crate) fn sample_of(line: Line) -> i16
    requires { Small line }
    ensures { result ≡ sample_of line }
{
    let Line::Number { negative, size } = line else {
        return 0;
    };
    let size = size as i16;
    if negative { -size } else { size }
}
