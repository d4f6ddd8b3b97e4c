// Numbers as digits, in decimal and in hexadecimal.
#![tactic(auto)]

ghost use Rattle.std.specs.Prelude.{◌≡◌, nat_abs, ◌<◌, length};
ghost use Rattle.digits.specs.Numbers.{is_digit, decimal, hex_digit, hexadecimal};

use arrayvec::ArrayVec;

pub fn is_digit(byte: u8) -> bool
    ensures { result ≡ is_digit byte }
{
    byte.is_ascii_digit()
}

// How far a number lies from 0: of -32768 too, which has no negative in 16 bits.
pub fn magnitude(z: i16) -> u16
    ensures { result ≡ nat_abs z }
{
    z.unsigned_abs()
}

// The decimal digits of a number.
#[tactic(auto, using(crate::proofs::Numbers::by_library))]
pub fn decimal(n: u16) -> ArrayVec<u8, 5>
    ensures { result.items ≡ decimal n }
{
    let mut buffer = itoa::Buffer::new();
    ArrayVec::try_from(buffer.format(n).as_bytes()).unwrap()
}

// How many decimal digits a number has.
#[tactic(auto, using(crate::proofs::Numbers::counts))]
pub fn count(n: u16) -> usize
    ensures { result ≡ length (decimal n) }
{
    match n {
        0..=9 => 1,
        10..=99 => 2,
        100..=999 => 3,
        1000..=9999 => 4,
        10000.. => 5,
    }
}

// The two hexadecimal digits of a byte, in lower case.
#[tactic(auto, unfolding(crate::specs::Numbers::hexadecimal))]
pub fn hexadecimal(byte: u8) -> [u8; 2]
    ensures { result ≡ hexadecimal byte }
{
    [hex_digit(byte / 16), hex_digit(byte % 16)]
}

fn hex_digit(n: u8) -> u8
    requires { n < 16 }
    ensures { result ≡ hex_digit n }
{
    if n < 10 { b'0' + n } else { b'a' - 10 + n }
}
