// The events, and the number of each, by which callers are told it.
ghost use Rattle.std.specs.Prelude.{◌≡◌};
ghost use Rattle.control.specs.Rules.{event_number, HasNumber};

// What a receiver tells: a character; one without a stop bit; a lost carrier; a break, as it begins; or a doubtful bit.
#[derive(Clone, Copy, Debug, PartialEq, Eq)]
pub enum Event {
    Character(u8),
    NoStop,
    CarrierLost,
    Break,
    DoubtfulBit,
}

// A number that is no event's.
#[derive(Clone, Copy, Debug, PartialEq, Eq)]
pub struct NoEvent(pub u16);

impl From<Event> for u16 {
    ghost from_gives = { λ event n. n ≡ event_number event };

    fn from(event: Event) -> u16 {
        match event {
            Event::Character(byte) => u16::from(byte),
            Event::NoStop => 256,
            Event::CarrierLost => 257,
            Event::Break => 258,
            Event::DoubtfulBit => 259,
        }
    }
}

impl TryFrom<u16> for Event {
    type Error = NoEvent;

    ghost try_from_gives = { HasNumber };

    #[tactic(auto, unfolding(crate::specs::Rules::is_event))]
    fn try_from(number: u16) -> Result<Self, NoEvent> {
        match number {
            0..=255 => Ok(Event::Character(number as u8)),
            256 => Ok(Event::NoStop),
            257 => Ok(Event::CarrierLost),
            258 => Ok(Event::Break),
            259 => Ok(Event::DoubtfulBit),
            _ => Err(NoEvent(number)),
        }
    }
}
