// A disturbance added to samples, place by place.
ghost use Rattle.std.specs.Prelude.{◌≡◌, ◌≤◌, length};
ghost use Rattle.integers.specs.Near.{altered};
ghost use Rattle.integers.specs.Sums.{Bounded};
ghost use Rattle.margin.specs.Windows.{disturbance};

// Adds the number of `added` at its place to each sample. By the place, since the check knows nothing of a slice behind `iter_mut().zip(..)`.
pub(crate) fn disturb(samples: &mut [i16], added: &[i16])
    requires sent { Bounded 6000 samples.old }
    requires small { Bounded disturbance added.now }
    requires enough { length samples.old ≤ length added.now }
    ensures { samples.new ≡ altered samples.old added.now }
{
    for (i, sample) in samples.iter_mut().enumerate() {
        *sample += added[i];
    }
}
