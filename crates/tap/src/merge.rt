// The events of two receivers in one list.
ghost use Rattle.std.specs.Prelude.{◌≡◌, ◌+◌, ◌*◌, ◌<◌, ◌≤◌, List, ℕ, ℤ, length};
ghost use Rattle.std.specs.Iterator.{YieldsFirst, item_count};
ghost use Rattle.std.proofs.lemmas.List.Edits.{sets};
ghost use Rattle.tap.specs.Step.{in_band};
ghost use Rattle.tap.specs.AsCoded.{AreEvents, listed, comes_first, IsTaken, merged_events, numbers_of, differences_of};

use std::marker::Model;

// What a receiver gave for a block, and the band that each of its events gets: the numbers of the events, and place by place their differences
// and the indices of their samples. Three lists, since `Receiver::block_indexed` fills three. A clause sees the events, each with its band, its difference and its index.
#[derive(Drop)]
pub(crate) struct Events<'a> {
    band: u8,
    numbers: &'a [u16],
    differences: &'a [i64],
    indices: &'a [u16],
}

impl<'a> Model for Events<'a> {
    ghost Value = { List ((ℕ × ℤ) × ℕ) };

    ghost view = { λ e. listed e.band e.numbers.now e.differences.now e.indices.now };

    ghost invariant = { λ e. (e.band ≤ 60) × AreEvents e.numbers.now e.differences.now e.indices.now };
}

impl<'a> Events<'a> {
    pub(crate) fn new(
        band: u8,
        numbers: &'a [u16],
        differences: &'a [i64],
        indices: &'a [u16],
    ) -> Self
        requires band { band ≤ 60 }
        requires events { AreEvents numbers.now differences.now indices.now }
        ensures { result ≡ listed band numbers.now differences.now indices.now }
    {
        Events {
            band,
            numbers,
            differences,
            indices,
        }
    }

    // The next event is one of these: there is one, and it comes with no later sample than the next of the others.
    fn comes_first(&self, others: &Events<'a>) -> bool
        ensures { result ≡ comes_first self.now others.now }
    {
        let [first, ..] = self.indices else {
            return false;
        };
        others.indices.first().is_none_or(|other| first <= other)
    }

    // Takes the first event, with its band, and its difference.
    fn take(&mut self) -> Option<(u16, i64)>
        ensures { IsTaken self.old result self.new }
    {
        let ([number, numbers @ ..], [difference, differences @ ..], [_, indices @ ..]) = (
            self.numbers,
            self.differences,
            self.indices,
        ) else {
            return None;
        };
        let event = in_band(self.band, *number);
        self.numbers = numbers;
        self.differences = differences;
        self.indices = indices;
        Some((event, *difference))
    }
}

// The events of two lists in the order of their indices; of one sample the event of the first goes first.
#[derive(Drop)]
pub(crate) struct Merged<'a> {
    pub(crate) first: Events<'a>,
    pub(crate) second: Events<'a>,
}

impl<'a> Model for Merged<'a> {
    ghost Value = { List (ℕ × ℤ) };

    ghost view = { λ m. merged_events m.first m.second };
}

impl<'a> Iterator for Merged<'a> {
    type Item = (u16, i64);

    ghost next_gives = { YieldsFirst (λ es. es) };

    ghost remaining = { item_count (λ es. es) };

    fn next(&mut self) -> Option<(u16, i64)> {
        if self.first.comes_first(&self.second) {
            self.first.take()
        } else {
            self.second.take()
        }
    }
}

impl<'a> Merged<'a> {
    // Puts the events down, and the difference of each at the same place of the second list: two lists, as the specification lends them. The
    // places are counted by hand, since their count is given.
    pub(crate) fn put(self, events: &mut [u16], differences: &mut [i64]) -> usize
        requires events_room { length self ≤ length events.old }
        requires differences_room { length self ≤ length differences.old }
        ensures count { result ≡ length self.entry }
        ensures events { events.new ≡ sets events.old 0 (numbers_of self.entry) }
        ensures differences { differences.new ≡ sets differences.old 0 (differences_of self.entry) }
    {
        let mut count = 0;
        for (event, difference) in self {
            events[count] = event;
            differences[count] = difference;
            count += 1;
        }
        count
    }
}

// 1,000 times the band, and the event.
fn in_band(band: u8, event: u16) -> u16
    requires { (band ≤ 60) × (event < 1000) }
    ensures { result ≡ in_band band event }
{
    1000 * u16::from(band) + event
}
