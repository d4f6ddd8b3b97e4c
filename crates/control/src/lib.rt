// What decisions do to a receiver: to its run and its stage, and which events they bring. How a window comes to its decision is
// not known here. `moved_by` is the whole rule of a sample. `asks_for`, `is_found` and `take` are parts of it, for a reading that does
// not judge every window. Every function takes every value of its types.
#![tactic(auto)]

ghost use Rattle.std.specs.Prelude.{◌≡◌, true, cond};
ghost use Rattle.control.specs.Ranges.{is_stage, is_control};
ghost use Rattle.control.specs.Rules.{run_after, next_of, moved_by, unmoved};
ghost use Rattle.control.specs.AsCoded.{is_found, asked_by, wait_over};

mod event;
mod slot;

pub use event::{Event, NoEvent};

// What the receiver does between samples: it searches for a start bit, or waits for a bit slot (the specification's moment: 0
// start, 1 to 8 data, 9 stop) with the byte gathered so far, or a break is held and it waits for mark.
#[derive(Clone, Copy, Debug, PartialEq, Eq)]
pub enum Stage {
    Searching,
    Waiting { wait: u8, slot: u8, byte: u8 },
    Held,
}

// The part of a receiver's state that decisions move: the run of samples with a good level, and the stage.
#[derive(Clone, Copy, Debug, PartialEq, Eq)]
pub struct Control {
    pub run: u8,
    pub stage: Stage,
}

// The bit of a window, as a slot takes it: mark, space, or doubtful where the two energies are too close to tell.
#[derive(Clone, Copy, Debug, PartialEq, Eq)]
pub enum Bit {
    Mark,
    Space,
    Doubtful,
}

// What the energies of a window decide: the level is good; space is above mark, for a search, a start slot and a held break; the bit, for the
// other slots. Beside it stands how far the energies are apart, larger minus smaller, which no rule here looks at.
#[derive(Clone, Copy, Debug, PartialEq, Eq)]
pub struct Decision {
    pub good: bool,
    pub space: bool,
    pub bit: Bit,
    pub difference: i64,
}

// What a stage asks for: it stays as it is until a decision with run 32 and a tone (space above mark, or not), which leads to the stage
// `then`; or it waits for a slot.
#[derive(Clone, Copy, Debug, PartialEq, Eq)]
pub enum Asked {
    Tone { space: bool, then: Stage },
    Slot { wait: u8, slot: u8, byte: u8 },
}

// The stage after a sample, and its event, if it has one.
#[derive(Clone, Copy, Debug, PartialEq, Eq)]
pub struct Next {
    pub stage: Stage,
    pub event: Option<Event>,
}

// Run and stage after a sample, and its event, if it has one.
#[derive(Clone, Copy, Debug, PartialEq, Eq)]
pub struct Moved {
    pub control: Control,
    pub event: Option<Event>,
}

// Rules 3 to 6 of the specification for one sample, by the decision at its window. Out of their ranges run and stage come back as they are, and
// there is no event.
#[tactic(auto, using(crate::proofs::Ranges::control_stage), unfolding(crate::specs::Rules::moved_by))]
pub fn moved_by(control: Control, d: Decision) -> Moved
    ensures { result ≡ cond (is_control control) (moved_by control d) (unmoved control) }
{
    if !is_control(control) {
        return Moved {
            control,
            event: None,
        };
    }
    let run = run_after(control.run, d.good);
    let n = next_of(control.stage, run, d);
    Moved {
        control: Control {
            run,
            stage: n.stage,
        },
        event: n.event,
    }
}

fn run_after(run: u8, good: bool) -> u8
    ensures { result ≡ run_after run good }
{
    if good {
        run.saturating_add(1).min(32)
    } else {
        0
    }
}

// The stage after a sample, from the run after it, and the event.
#[tactic(auto, unfolding(crate::specs::Rules::next_of, crate::specs::Ranges::is_stage))]
fn next_of(stage: Stage, run: u8, d: Decision) -> Next
    requires { is_stage stage ≡ true }
    ensures { result ≡ next_of stage run d }
{
    match asks_for(stage) {
        Asked::Tone { space, then } => {
            if is_found(space, usize::from(run), d) {
                Next::quiet(then)
            } else {
                Next::quiet(stage)
            }
        }
        Asked::Slot { wait, slot, byte } => {
            if wait == 1 {
                take(slot, byte, d)
            } else {
                Next::quiet(Stage::Waiting {
                    wait: wait - 1,
                    slot,
                    byte,
                })
            }
        }
    }
}

// A search ends: the carrier has stood for 32 samples, and space is above mark, or not, as the search asks.
pub fn is_found(space: bool, run: usize, d: Decision) -> bool
    ensures { result ≡ is_found space run d }
{
    run == 32 && d.space == space
}

// What a stage asks for. The middle of a start bit is 16 samples behind its beginning.
pub fn asks_for(stage: Stage) -> Asked
    ensures { result ≡ asked_by stage }
{
    match stage {
        Stage::Searching => Asked::Tone {
            space: true,
            then: Stage::Waiting {
                wait: 16,
                slot: 0,
                byte: 0,
            },
        },
        Stage::Waiting { wait, slot, byte } => Asked::Slot { wait, slot, byte },
        Stage::Held => Asked::Tone {
            space: false,
            then: Stage::Searching,
        },
    }
}

// The stage after the sample at which a wait for a slot ends, and the event. A slot out of its ranges is given up.
pub fn take(slot: u8, byte: u8, d: Decision) -> Next
    ensures { result ≡ wait_over slot byte d }
{
    if slot::is_slot(slot, byte) {
        slot::take_slot(slot, byte, d)
    } else {
        Next::quiet(Stage::Searching)
    }
}

// Run and stage are in their ranges.
#[tactic(auto, unfolding(crate::specs::Ranges::is_control))]
pub fn is_control(control: Control) -> bool
    ensures { result ≡ is_control control }
{
    control.run <= 32 && is_stage(control.stage)
}

#[tactic(auto, unfolding(crate::specs::Ranges::is_stage))]
fn is_stage(stage: Stage) -> bool
    ensures { result ≡ is_stage stage }
{
    match stage {
        Stage::Waiting { wait, slot, byte } => slot::is_wait(wait, slot)
            && slot::is_slot(slot, byte),
        Stage::Searching | Stage::Held => true,
    }
}
