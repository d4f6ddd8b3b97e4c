// The windows of a block: every 32 samples in a row are one. Those that begin before the block are parts of a short list, the head: the old
// window with the first samples behind it. All others are parts of the block itself.
ghost use Rattle.receiver.specs.Weighed.{IsSource};

use crate::ends;
use crate::energy::Bank;
use control::Decision;

// What the windows are parts of, and what they are weighed by.
#[derive(Clone, Copy)]
pub(crate) struct Source<'a> {
    head: [i16; 64],
    samples: &'a [i16],
    bank: Bank,
    ghost sound: { IsSource head samples.now },
}

#[tactic(auto, using(crate::proofs::Sources::window_each))]
impl<'a> Source<'a> {
    ghost use Rattle.std.specs.Prelude.{◌≡◌, true, ◌++◌, ◌<◌, length, drop};
    ghost use Rattle.tones.specs.Bands.{tones_of};
    ghost use Rattle.tones.specs.Samples.{are_samples};
    ghost use Rattle.receiver.specs.Windows.{decisions_of};
    ghost use Rattle.receiver.specs.Weighed.{judged};
    ghost use Rattle.receiver.specs.AsCoded.{decisions_in};

    // The windows that the samples of a block complete.
    pub(crate) fn new(band: u8, window: &[i16; 32], samples: &'a [i16]) -> Source<'a>
        requires window { are_samples window.now ≡ true }
        requires samples { are_samples samples.now ≡ true }
        ensures { decisions_in result ≡ decisions_of band (drop 1 window.now ++ samples.now) }
    {
        Source {
            head: ends::head(window, samples),
            samples,
            bank: Bank::from(tones::tones_of(band)),
        }
    }

    // There is one for each sample.
    pub(crate) fn len(&self) -> usize
        ensures { result ≡ length (decisions_in self.now) }
    {
        self.samples.len()
    }

    // The decision at window i, which ends with sample i.
    pub(crate) fn judge(&self, i: usize) -> Decision
        requires { i < length (decisions_in self.now) }
        ensures { result ≡ judged (decisions_in self.now) i }
    {
        let window = if i < 31 {
            &self.head[i + 1..i + 33]
        } else {
            &self.samples[i - 31..i + 1]
        };
        self.bank.decide(window.as_array::<32>().unwrap())
    }
}
