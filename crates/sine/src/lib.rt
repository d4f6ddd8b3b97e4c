// The samples of a tone and the weights of two tones, from the first quarter of a sine with 1,920 phases to the cycle and amplitude 6,000.
// Nothing above this crate sees the table: its users know S of specs/Sine.antt, the lists of specs/Wave.antt, and their laws.
#![tactic(auto)]

ghost use Rattle.std.specs.Prelude.{◌≡◌};
ghost use Rattle.sine.specs.Wave.{wave, weights_of};

mod fold;
mod table;

use crate::fold::sines;
use calls::put;

// The 32 samples of a tone from a phase on.
pub fn tone(step: u16, phase: u16) -> [i16; 32]
    ensures { result ≡ wave 32 step phase }
{
    sines(table::quarter(), step, phase)
}

// The weights of two tones, 32 of each kind: the cosines and the sines of the first, then those of the second. A cosine is the sine a
// quarter of a cycle ahead.
pub fn weights(first: u16, second: u16) -> [i16; 128]
    ensures { result ≡ weights_of first second }
{
    let quarter = table::quarter();
    let mut made = [0i16; 128];
    put(&mut made, 0, &sines(quarter, first, 480));
    put(&mut made, 32, &sines(quarter, first, 0));
    put(&mut made, 64, &sines(quarter, second, 480));
    put(&mut made, 96, &sines(quarter, second, 0));
    made
}
