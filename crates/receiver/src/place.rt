// Places in a block: how far it is read, and what is known of the run there.
ghost use Rattle.std.specs.Prelude.{◌≡◌, ◌<◌};
ghost use Rattle.receiver.specs.AsCoded.{exactly, moved_to, skipped};

// A place in a block, before the window `next`. Before the window `known` the run was `ran`, and the windows since `since` have a good
// level.
#[derive(Clone, Copy)]
pub(crate) struct Place {
    pub next: usize,
    pub known: usize,
    pub ran: usize,
    pub since: usize,
}

impl Place {
    // Before a window, where the run is known.
    pub(crate) fn exact(next: usize, run: usize) -> Place
        ensures { result ≡ exactly next run }
    {
        Place {
            next,
            known: next,
            ran: run,
            since: next,
        }
    }

    // Further on, where the run is known as at the place, and the levels are good since a window.
    pub(crate) fn moved(self, next: usize, since: usize) -> Place
        ensures { result ≡ moved_to self next since }
    {
        Place {
            next,
            since,
            ..self
        }
    }

    // At the first window after which the run can be 32. The windows that are passed over are not judged.
    pub(crate) fn skip(self) -> Place
        requires { self.known < 9223372036854775808 }
        ensures { result ≡ skipped self }
    {
        let first = self.known + 31usize.saturating_sub(self.ran);
        if first <= self.next {
            self
        } else {
            self.moved(first, first)
        }
    }
}
