// A bit slot: its ranges, and what is done when it is taken. Slot and byte stand apart, as in `Stage`: the theorems name the three fields of
// a wait.
ghost use Rattle.std.specs.Prelude.{◌≡◌, true, ◌-◌, ◌^◌, ◌≤◌, ◌<◌};
ghost use Rattle.control.specs.declared.Stage.TheVariants.{Waiting};
ghost use Rattle.control.specs.Ranges.{is_wait, is_slot};
ghost use Rattle.control.specs.Rules.{quiet, report, hold_break, bit_taken, taken};
ghost use Rattle.control.specs.AsCoded.{with_bit};

use super::{Bit, Decision, Event, Next, Stage};

// The slot that was waited for is taken.
#[tactic(auto, unfolding(crate::specs::Rules::taken))]
pub(crate) fn take_slot(slot: u8, byte: u8, d: Decision) -> Next
    requires { is_slot slot byte ≡ true }
    ensures { result ≡ taken slot byte d }
{
    if slot == 0 {
        if d.good && d.space {
            Next::waiting(1, 0)
        } else {
            Next::quiet(Stage::Searching)
        }
    } else if !d.good {
        Next::report(Event::CarrierLost)
    } else {
        take_bit(slot, byte, d.bit)
    }
}

// The bit of a data or stop slot: it is gathered, or brings an event. Doubt is asked for by itself: sound recordings have none, so that the
// processor foresees the answer.
#[tactic(auto, using(crate::proofs::Ranges::slot_below))]
fn take_bit(slot: u8, byte: u8, bit: Bit) -> Next
    requires behind_start { 1 ≤ slot }
    requires in_range { is_slot slot byte ≡ true }
    ensures { result ≡ bit_taken slot byte bit }
{
    if bit == Bit::Doubtful {
        Next::report(Event::DoubtfulBit)
    } else if slot <= 8 {
        Next::waiting(slot + 1, gather(slot, byte, bit))
    } else if bit == Bit::Mark {
        Next::report(Event::Character(byte))
    } else if byte == 0 {
        Next::hold_break()
    } else {
        Next::report(Event::NoStop)
    }
}

// The byte with the bit of a data slot, the least significant first.
fn gather(slot: u8, byte: u8, bit: Bit) -> u8
    requires { (1 ≤ slot) × (slot ≤ 8) × (byte < 2 ^ (slot - 1)) }
    ensures { result ≡ with_bit slot byte bit }
{
    if bit == Bit::Mark {
        byte + weight(slot)
    } else {
        byte
    }
}

// The weight of a data slot's bit.
fn weight(slot: u8) -> u8
    requires { (1 ≤ slot) × (slot ≤ 8) }
    ensures { result ≡ 2 ^ (slot - 1) }
{
    1u8 << (slot - 1)
}

impl Next {
    // A stage without an event.
    pub(crate) fn quiet(stage: Stage) -> Self
        ensures { result ≡ quiet stage }
    {
        Next { stage, event: None }
    }

    // The next slot is a bit, 32 samples, away.
    fn waiting(slot: u8, byte: u8) -> Self
        ensures { result ≡ quiet (Waiting 32 slot byte) }
    {
        Next::quiet(Stage::Waiting {
            wait: 32,
            slot,
            byte,
        })
    }

    // An event, after which the receiver searches.
    fn report(event: Event) -> Self
        ensures { result ≡ report event }
    {
        Next {
            stage: Stage::Searching,
            event: Some(event),
        }
    }

    // A break, which is held from here on.
    fn hold_break() -> Self
        ensures { result ≡ hold_break }
    {
        Next {
            stage: Stage::Held,
            event: Some(Event::Break),
        }
    }
}

pub(crate) fn is_wait(wait: u8, slot: u8) -> bool
    ensures { result ≡ is_wait wait slot }
{
    let most = if slot == 0 { 16 } else { 32 };
    1 <= wait && wait <= most
}

#[tactic(auto, unfolding(crate::specs::Ranges::is_slot))]
pub(crate) fn is_slot(slot: u8, byte: u8) -> bool
    ensures { result ≡ is_slot slot byte }
{
    match slot {
        0 | 1 => byte == 0,
        2..=8 => byte < weight(slot),
        9 => true,
        _ => false,
    }
}
