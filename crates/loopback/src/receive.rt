// Reading in blocks of one size, through the receiver's second entry.
ghost use Rattle.std.specs.Prelude.{◌≡◌, true, ◌+◌, ◌≤◌, length};
ghost use Rattle.std.proofs.lemmas.List.Edits.{sets};
ghost use Rattle.tones.specs.Bands.{is_band};
ghost use Rattle.tones.specs.Samples.{most_samples, are_samples};
ghost use Rattle.receiver.specs.Step.{state_after, measured_after};
ghost use Rattle.receiver.specs.Calls.{fresh, in_range};
ghost use Rattle.receiver.specs.AsCoded.{numbers_of, differences_of};

use calls::put;
use receiver::{MOST_EVENTS, Receiver};

// Reads samples from the fresh receiver of a band. The events and their differences go to the fronts of the two lists, and their count is
// given. Two lists here and below, since the receiver fills two.
pub(crate) fn receive(
    band: u8,
    samples: &[i16],
    size: usize,
    events: &mut [u16],
    differences: &mut [i64],
) -> usize
    requires known { is_band band ≡ true }
    requires sound { are_samples samples.now ≡ true }
    requires block_size { (1 ≤ size) × (size ≤ most_samples) }
    requires room { length (measured_after (fresh band) samples.now) ≤ length events.old }
    ensures count { result ≡ length (measured_after (fresh band) samples.now) }
    ensures told { events.new
        ≡ sets events.old 0 (numbers_of (measured_after (fresh band) samples.now)) }
    ensures beside { differences.new
        ≡ sets differences.old 0 (differences_of (measured_after (fresh band) samples.now)) }
{
    let mut receiver = Receiver::open(band).state;
    let mut count = 0;
    for block in samples.chunks(size) {
        count = read(&mut receiver, block, events, differences, count);
    }
    count
}

// Reads a block, and puts its events and their differences behind the `count` that are there. It gives the new count.
fn read(
    receiver: &mut Receiver,
    block: &[i16],
    events: &mut [u16],
    differences: &mut [i64],
    count: usize,
) -> usize
    requires ranged { in_range receiver.old ≡ true }
    requires few { length block.now ≤ most_samples }
    requires sound { are_samples block.now ≡ true }
    requires room { count + length (measured_after receiver.old block.now) ≤ length events.old }
    ensures next { receiver.new ≡ state_after receiver.old block.now }
    ensures count { result ≡ count + length (measured_after receiver.old block.now) }
    ensures told { events.new
        ≡ sets events.old count (numbers_of (measured_after receiver.old block.now)) }
    ensures beside { differences.new
        ≡ sets differences.old count (differences_of (measured_after receiver.old block.now)) }
{
    let mut told = [0u16; MOST_EVENTS];
    let mut measured = [0i64; MOST_EVENTS];
    let n = lent::block(receiver, block, &mut told, &mut measured).unwrap();
    put(events, count, &told[..n]);
    put(differences, count, &measured[..n]);
    count + n
}
