// The lines of events, put into a buffer.
ghost use Rattle.std.specs.Prelude.{◌≡◌, true, ◌≤◌, ◌<◌, length};
ghost use Rattle.integers.specs.All.{All};
ghost use Rattle.calls.specs.Outcome.{over};
ghost use Rattle.control.specs.Rules.{is_event, event_number};
ghost use Rattle.receiver.specs.Calls.{most_events};
ghost use Rattle.demodulator.specs.Lines.{kind_of, value_of, event_line, events_text};

use crate::MOST_PRINTED;
use arrayvec::ArrayVec;
use control::Event;

// The names line and a line for each event over the buffer's front, and their length. The events are numbers, since
// `Receiver::block` lists them so. The place is counted by hand, since the lines differ in length.
#[tactic(auto, using(crate::proofs::Printed::by_lines))]
pub(crate) fn put_events(out: &mut [u8; MOST_PRINTED], events: &[u16]) -> usize
    requires few { length events.now ≤ most_events }
    requires known { All (λ event. is_event event ≡ true) events.now }
    ensures count { result ≡ length (events_text events.now) }
    ensures lent { out.new ≡ over (events_text events.now) out.old }
{
    let names = b"number kind value\n";
    calls::put(out, 0, names);
    let mut at = names.len();
    for (place, &event) in events.iter().enumerate() {
        let line = event_line(place as u16, Event::try_from(event).unwrap());
        calls::put(out, at, &line);
        at += line.len();
    }
    at
}

// An event's place, kind and value. The line is not made by `write!`, since it does not promise to succeed where there is room.
#[tactic(auto, using(crate::proofs::Printed::by_parts), unfolding(crate::specs::Lines::event_line))]
fn event_line(place: u16, event: Event) -> ArrayVec<u8, 14>
    requires { place < 1000 }
    ensures { result.items ≡ event_line place (event_number event) }
{
    let digits = digits::decimal(place);
    let value = value_of(event);
    let mut line = ArrayVec::new();
    line.try_extend_from_slice(&digits).unwrap();
    line.push(b' ');
    line.try_extend_from_slice(kind_of(event)).unwrap();
    line.push(b' ');
    line.try_extend_from_slice(&value).unwrap();
    line.push(b'\n');
    line
}

// The name of its kind.
fn kind_of(event: Event) -> &'static [u8]
    ensures { result.now ≡ kind_of (event_number event) }
{
    match event {
        Event::Character(_) => b"char",
        Event::NoStop => b"nostop",
        Event::CarrierLost => b"lost",
        Event::Break => b"break",
        Event::DoubtfulBit => b"doubt",
    }
}

// A character as two hexadecimal digits, and two dashes for the other kinds.
fn value_of(event: Event) -> [u8; 2]
    ensures { result ≡ value_of (event_number event) }
{
    match event {
        Event::Character(byte) => digits::hexadecimal(byte),
        _ => *b"--",
    }
}
