// The lists that are lent for the events of a block.
ghost use Rattle.std.specs.Prelude.{◌+◌, ◌≤◌, length};
ghost use Rattle.calls.specs.Runs.{with_index};
ghost use Rattle.receiver.specs.Lent.{Put, told_by};

use control::Event;

// An event with the difference that it carries.
#[derive(Clone, Copy)]
pub(crate) struct Told {
    pub event: Event,
    pub difference: i64,
}

// From the front on they are filled with the numbers of the events, their differences and, as far as there are places, their indices.
#[derive(Drop)]
pub(crate) struct Lists<'a> {
    pub events: &'a mut [u16],
    pub differences: &'a mut [i64],
    pub indices: &'a mut [u16],
    pub count: usize,
}

impl Lists<'_> {
    // Writes the event, if there is one.
    pub(crate) fn put(&mut self, told: Option<Told>, index: u16)
        requires events { self.old.count + length (told_by told) ≤ length self.old.events.now }
        requires differences { self.old.count + length (told_by told) ≤ length self.old.differences.now }
        ensures { Put self.old self.new (with_index index (told_by told)) }
    {
        if let Some(told) = told {
            self.events[self.count] = told.event.into();
            self.differences[self.count] = told.difference;
            if self.count < self.indices.len() {
                self.indices[self.count] = index;
            }
            self.count += 1;
        }
    }
}
