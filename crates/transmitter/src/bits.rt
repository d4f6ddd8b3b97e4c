// Bits and characters as samples in a buffer that has room for them. Each bit is 32 samples of its tone, from the phase at
// which the bit before it ended.
ghost use Rattle.std.specs.Prelude.{◌≡◌, ◌+◌, ◌*◌, ◌%◌, ◌≤◌, length};
ghost use Rattle.std.proofs.lemmas.List.Edits.{sets};
ghost use Rattle.tones.specs.Bands.{step_of};
ghost use Rattle.transmitter.specs.Samples.{char_bits, characters_bits};
ghost use Rattle.transmitter.specs.Calls.{samples_of, after_bits};

use crate::Transmitter;
use calls::put;
use tones::Tones;

impl Transmitter {
    // Puts the samples of bits, 0 or 1 each, from the place `at` on, and gives the state after them.
    pub(crate) fn put_bits(self, out: &mut [i16], at: usize, bits: &[u8]) -> Transmitter
        requires { at + 32 * length bits.now ≤ length out.old }
        ensures next { result ≡ after_bits self bits.now }
        ensures lent { out.new ≡ sets out.old at (samples_of self bits.now) }
    {
        let tones = tones::tones_of(self.band);
        let mut phase = self.phase;
        for (i, &bit) in bits.iter().enumerate() {
            let step = step_of(tones, bit);
            put(out, at + 32 * i, &sine::tone(step, phase));
            phase = next_phase(step, phase);
        }
        Transmitter { phase, ..self }
    }

    // Puts the samples of characters at the front of the buffer, and gives the state after them.
    pub(crate) fn put_characters(self, out: &mut [i16], bytes: &[u8]) -> Transmitter
        requires { 320 * length bytes.now ≤ length out.old }
        ensures next { result ≡ after_bits self (characters_bits bytes.now) }
        ensures lent { out.new ≡ sets out.old 0 (samples_of self (characters_bits bytes.now)) }
    {
        let mut next = self;
        for (i, &byte) in bytes.iter().enumerate() {
            next = next.put_bits(out, 320 * i, &char_bits(byte));
        }
        next
    }
}

// A character's ten bits: a start bit, the byte's bits from the least significant on, and a stop bit.
fn char_bits(byte: u8) -> [u8; 10]
    ensures { result ≡ char_bits byte }
{
    [
        0,
        byte % 2,
        byte / 2 % 2,
        byte / 4 % 2,
        byte / 8 % 2,
        byte / 16 % 2,
        byte / 32 % 2,
        byte / 64 % 2,
        byte / 128 % 2,
        1,
    ]
}

fn step_of(tones: Tones, bit: u8) -> u16
    ensures { result ≡ step_of tones bit }
{
    if bit == 0 { tones.space } else { tones.mark }
}

// The phase after 32 samples.
fn next_phase(step: u16, phase: u16) -> u16
    ensures { result ≡ (phase + 32 * step) % 1920 }
{
    ((phase as u32 + 32 * (step as u32)) % 1920) as u16
}
