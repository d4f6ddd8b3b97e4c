// Windows judged one by one: forwards, for the end of a search, and backwards, for the run.
ghost use Rattle.std.specs.Prelude.{◌≡◌};
ghost use Rattle.receiver.specs.AsCoded.{missed_at};

use crate::place::Place;
use crate::source::Source;

// How far a search went on, and whether its last window ends it.
#[derive(Clone, Copy)]
pub(crate) struct Sought {
    pub place: Place,
    pub found: bool,
}

#[tactic(auto, using(crate::proofs::Sources::window_each))]
impl Source<'_> {
    ghost use Rattle.std.specs.Prelude.{◌≡◌, ◌<◌, length};
    ghost use Rattle.receiver.specs.AsCoded.{decisions_in, IsPlace, run_at, Seeks};

    // Goes on with a search that ends at run 32 with space above mark or, if `space` is false, with mark at least space. It stops behind the
    // first window of that tone or the first without a good level: behind the latter the next 31 windows can be passed over.
    pub(crate) fn seek(&self, place: Place, space: bool) -> Sought
        requires place { IsPlace (decisions_in self.now) place }
        requires left { place.next < length (decisions_in self.now) }
        ensures { Seeks (decisions_in self.now) place space result }
    {
        let end = self.len();
        let first = place.skip();
        for i in first.next..end {
            let d = self.judge(i);
            if !d.good {
                return missed(Place::exact(i + 1, 0));
            }
            if d.space == space {
                let run = self.run_back(place.moved(i + 1, first.since));
                return Sought {
                    place: Place::exact(i + 1, run),
                    found: control::is_found(space, run, d),
                };
            }
        }
        missed(place.moved(end, first.since.min(end)))
    }

    // The run at a place. Before the windows that are known to have a good level, others are judged, the last one first, until one has none,
    // 32 have one, or the window is reached before which the run is known.
    pub(crate) fn run_back(&self, place: Place) -> usize
        requires { IsPlace (decisions_in self.now) place }
        ensures { result ≡ run_at (decisions_in self.now) place }
    {
        let stop = place.known.max(place.next.saturating_sub(32));
        for i in (stop..place.since).rev() {
            if !self.judge(i).good {
                return place.next - i - 1;
            }
        }
        (place.ran + (place.next - place.known)).min(32)
    }
}

fn missed(place: Place) -> Sought
    ensures { result ≡ missed_at place }
{
    Sought {
        place,
        found: false,
    }
}
