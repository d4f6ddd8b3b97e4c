// What an opening is refused with, and the fresh tap of a pair of bands.
ghost use Rattle.std.specs.Prelude.{◌≡◌, true};
ghost use Rattle.calls.specs.Refusals.{refusal_number, first_of};
ghost use Rattle.tones.specs.Bands.{is_pair};
ghost use Rattle.tap.specs.Calls.{fresh, open_tests};

use super::Tap;
use calls::Refusal;
use receiver::Receiver;

// The first reason to refuse an opening.
pub(crate) fn check(first: u8, second: u8) -> Result<(), Refusal>
    ensures { refusal_number result ≡ first_of (open_tests first second) }
{
    if !tones::is_band(first) || !tones::is_band(second) {
        return Err(Refusal::UnknownBand);
    }
    if !tones::is_pair(first, second) {
        return Err(Refusal::NotAPair);
    }
    Ok(())
}

// The fresh receivers of the bands.
pub(crate) fn fresh(first: u8, second: u8) -> Tap
    requires { is_pair first second ≡ true }
    ensures { result ≡ fresh first second }
{
    Tap {
        first: Receiver::open(first).state,
        second: Receiver::open(second).state,
    }
}
