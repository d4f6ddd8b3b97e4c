// The fresh state of a band.
ghost use Rattle.std.specs.Prelude.{◌≡◌};
ghost use Rattle.receiver.specs.Calls.{fresh};

use super::Receiver;
use control::Stage;

pub(crate) fn fresh(band: u8) -> Receiver
    ensures { result ≡ fresh band }
{
    Receiver {
        band,
        window: [0i16; 32],
        run: 0,
        stage: Stage::Searching,
        smallest: None,
    }
}
