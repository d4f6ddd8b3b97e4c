// A block is read from place to place. It has a window for each sample, and only those are judged whose decision something asks for:
// while the receiver waits, that of the slot; while it searches, those after which the run can be 32; for the run, the last ones.
use crate::filling::{Lists, Told};
use crate::place::Place;
use crate::seek::Sought;
use crate::source::Source;
use control::{Asked, Control, Stage};
use quality::Tracked;

// Where the reading stands: the place, and there the stage and the smallest difference.
#[derive(Clone, Copy)]
pub(crate) struct Standing {
    pub place: Place,
    pub stage: Stage,
    pub smallest: Option<i64>,
}

// Where a stage comes to, and what the last window tells.
#[derive(Clone, Copy)]
pub(crate) struct Turn {
    pub to: Standing,
    pub told: Option<Told>,
}

#[tactic(auto, using(crate::proofs::Sources::window_each))]
impl Source<'_> {
    ghost use Rattle.std.specs.Prelude.{◌≡◌, true, ◌+◌, ◌<◌, ◌≤◌, length};
    ghost use Rattle.tones.specs.Samples.{most_samples};
    ghost use Rattle.control.specs.declared.Stage.TheVariants.{Waiting};
    ghost use Rattle.control.specs.Ranges.{is_control, is_stage};
    ghost use Rattle.quality.specs.Quality.{track, measures_from};
    ghost use Rattle.receiver.specs.Lent.{Put};
    ghost use Rattle.receiver.specs.AsCoded.{decisions_in, IsPlace, Onward};

    // Reads the windows from a state on, and writes the events with their differences, and their indices as far as there are places for them.
    // The run at the end is part of the next state.
    pub(crate) fn scan(&self, first: Tracked, lists: &mut Lists) -> Tracked
        requires few { length (decisions_in self.now) ≤ most_samples }
        requires control { is_control first.control ≡ true }
        requires events { lists.old.count + length (measures_from 0 first (decisions_in self.now)) ≤ length lists.old.events.now }
        requires differences { lists.old.count + length (measures_from 0 first (decisions_in self.now)) ≤ length lists.old.differences.now }
        ensures state { result ≡ track first (decisions_in self.now) }
        ensures told { Put lists.old lists.new (measures_from 0 first (decisions_in self.now)) }
    {
        let mut at = Standing {
            place: Place::exact(0, usize::from(first.control.run)),
            stage: first.control.stage,
            smallest: first.smallest,
        };
        while at.place.next < self.len() {
            let turn = self.go_on(at);
            at = turn.to;
            lists.put(turn.told, (at.place.next - 1) as u16);
        }
        Tracked {
            control: Control {
                run: self.run_back(at.place) as u8,
                stage: at.stage,
            },
            smallest: at.smallest,
        }
    }

    // Goes on with what the stage asks for: a search as far as `seek` goes, or a wait to its slot.
    fn go_on(&self, from: Standing) -> Turn
        requires place { IsPlace (decisions_in self.now) from.place }
        requires left { from.place.next < length (decisions_in self.now) }
        requires stage { is_stage from.stage ≡ true }
        ensures { Onward (decisions_in self.now) from result }
    {
        match control::asks_for(from.stage) {
            Asked::Tone { space, then } => self.seek(from.place, space).turn(from, then),
            Asked::Slot { wait, slot, byte } => self.wait_for(from, wait, slot, byte),
        }
    }

    // A wait goes on to its slot, or to the end of the block. Only the window of the slot is judged.
    fn wait_for(&self, from: Standing, wait: u8, slot: u8, byte: u8) -> Turn
        requires place { IsPlace (decisions_in self.now) from.place }
        requires left { from.place.next < length (decisions_in self.now) }
        requires stage { is_stage from.stage ≡ true }
        requires waiting { from.stage ≡ Waiting wait slot byte }
        ensures { Onward (decisions_in self.now) from result }
    {
        let end = self.len();
        let i = from.place.next + usize::from(wait) - 1;
        if end <= i {
            let wait = (i + 1 - end) as u8;
            return Turn {
                to: Standing {
                    place: from.place.moved(end, end),
                    stage: Stage::Waiting { wait, slot, byte },
                    ..from
                },
                told: None,
            };
        }
        let d = self.judge(i);
        let n = control::take(slot, byte, d);
        let m = quality::measure(slot, from.smallest, d.difference, n.stage);
        Turn {
            to: Standing {
                place: if d.good {
                    from.place.moved(i + 1, i)
                } else {
                    Place::exact(i + 1, 0)
                },
                stage: n.stage,
                smallest: m.smallest,
            },
            told: n.event.map(|event| Told {
                event,
                difference: m.difference,
            }),
        }
    }
}

impl Sought {
    ghost use Rattle.std.specs.Prelude.{◌≡◌};
    ghost use Rattle.receiver.specs.AsCoded.{sought_to};

    // What a search comes to: the stage `then` if it is found, and else it goes on. It tells nothing.
    fn turn(self, from: Standing, then: Stage) -> Turn
        ensures { result ≡ sought_to self from then }
    {
        let stage = if self.found { then } else { from.stage };
        Turn {
            to: Standing {
                place: self.place,
                stage,
                ..from
            },
            told: None,
        }
    }
}
