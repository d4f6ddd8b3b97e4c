// An accepted block: the windows that its samples complete are read from the state on.
ghost use Rattle.std.specs.Prelude.{◌≡◌, true, ◌+◌, ◌≤◌, length};
ghost use Rattle.tones.specs.Samples.{most_samples, are_samples};
ghost use Rattle.receiver.specs.Step.{state_after, indexed_after};
ghost use Rattle.receiver.specs.Calls.{in_range, places_for};
ghost use Rattle.receiver.specs.Lent.{Put};

use crate::filling::Lists;
use crate::source::Source;
use crate::{Receiver, ends};

// Reads the samples, and gives the next state. The indices of the events are written as far as there are places for them.
pub(crate) fn read(receiver: Receiver, samples: &[i16], lists: &mut Lists) -> Receiver
    requires ranged { in_range receiver ≡ true }
    requires few { length samples.now ≤ most_samples }
    requires sound { are_samples samples.now ≡ true }
    requires events { lists.old.count + places_for (length samples.now) ≤ length lists.old.events.now }
    requires differences { lists.old.count + places_for (length samples.now) ≤ length lists.old.differences.now }
    ensures state { result ≡ state_after receiver samples.now }
    ensures told { Put lists.old lists.new (indexed_after receiver samples.now) }
{
    let window = receiver.window;
    let last = Source::new(receiver.band, &window, samples).scan(receiver.tracked(), lists);
    Receiver {
        band: receiver.band,
        window: ends::last_window(&window, samples),
        run: last.control.run,
        stage: last.control.stage,
        smallest: last.smallest,
    }
}
