// The energies of the two tones of a band in a window, and what they decide.
ghost use Rattle.std.specs.Prelude.{◌≡◌, true, ◌≤◌, nat_abs, ◌+ℤ◌, ◌*ℤ◌};
ghost use Rattle.integers.specs.Sums.{Bounded, dot};
ghost use Rattle.tones.specs.Samples.{are_samples};

use control::Decision;
use tones::Tones;

// What a window is weighed by for one tone.
#[derive(Clone, Copy)]
pub(crate) struct Tone {
    pub cos: [i16; 32],
    pub sin: [i16; 32],
    ghost small: { Bounded 6000 cos × Bounded 6000 sin },
}

// The two tones of a band.
#[derive(Clone, Copy)]
pub(crate) struct Bank {
    pub space: Tone,
    pub mark: Tone,
}

impl From<Tones> for Bank {
    ghost use Rattle.receiver.specs.Energy.{decision_of};
    ghost use Rattle.receiver.specs.Weighed.{decision_by};

    ghost from_gives = { λ tones bank. decision_by bank ≡ decision_of tones };

    #[tactic(auto, using(crate::proofs::Energies::band_small))]
    fn from(tones: Tones) -> Bank {
        let weights = sine::weights(tones.space, tones.mark);
        Bank {
            space: Tone::of(&weights, 0),
            mark: Tone::of(&weights, 64),
        }
    }
}

impl Bank {
    ghost use Rattle.receiver.specs.Weighed.{decision_by};

    // The decision at a window.
    pub(crate) fn decide(&self, window: &[i16; 32]) -> Decision
        requires { are_samples window.now ≡ true }
        ensures { result ≡ decision_by self.now window.now }
    {
        let space = self.space.energy(window);
        let mark = self.mark.energy(window);
        weighing::weigh(space, mark)
    }
}

impl Tone {
    ghost use Rattle.std.specs.Prelude.{◌+◌, take, drop};
    ghost use Rattle.receiver.specs.Weighed.{energy_by};

    // The weights of a tone, which begin at a place of those of a band: its cosines, and behind them its sines.
    #[tactic(auto, using(crate::proofs::Energies::parts_small))]
    fn of(weights: &[i16; 128], at: usize) -> Tone
        requires small { Bounded 6000 weights.now }
        requires room { at ≤ 64 }
        ensures cos { result.cos ≡ take 32 (drop at weights.now) }
        ensures sin { result.sin ≡ take 32 (drop (at + 32) weights.now) }
    {
        Tone {
            cos: *weights[at..at + 32].as_array().unwrap(),
            sin: *weights[at + 32..at + 64].as_array().unwrap(),
        }
    }

    // I times I + Q times Q.
    fn energy(&self, window: &[i16; 32]) -> i64
        requires { are_samples window.now ≡ true }
        ensures { result ≡ energy_by self.now window.now }
    {
        squares(dot(window, &self.cos), dot(window, &self.sin))
    }
}

// The sum of the products of samples and weights. Inlined, since the two sums of a tone then load the window once.
#[inline(always)]
fn dot(window: &[i16; 32], weights: &[i16; 32]) -> i32
    requires samples { are_samples window.now ≡ true }
    requires small { Bounded 6000 weights.now }
    ensures sum { result ≡ dot window.now weights.now }
    ensures size { nat_abs result ≤ 1572672000 }
{
    let mut sum: i32 = 0;
    for (x, w) in window.iter().zip(weights) {
        sum += i32::from(*x) * i32::from(*w);
    }
    sum
}

fn squares(i: i32, q: i32) -> i64
    requires { (nat_abs i ≤ 1572672000) × (nat_abs q ≤ 1572672000) }
    ensures { result ≡ i *ℤ i +ℤ q *ℤ q }
{
    let a = i64::from(i);
    let b = i64::from(q);
    a * a + b * b
}
