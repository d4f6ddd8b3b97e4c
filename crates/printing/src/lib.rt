// The lines of a refusal, which both programs print.
#![tactic(auto)]

ghost use Rattle.std.specs.Prelude.{◌≡◌, length};
ghost use Rattle.std.proofs.lemmas.List.Edits.{sets};
ghost use Rattle.printing.specs.Printing.{refusal_lines};

// Puts the lines at the buffer's front, and gives their length, with the bytes for which there is no place. It takes a number, not a
// `Refusal`, since its contract holds for every number. They are not made by `write!`, since it does not promise to succeed where there is
// room.
#[tactic(auto, using(crate::proofs::Printing::in_parts))]
pub fn put_refusal(out: &mut [u8], number: u8) -> usize
    ensures count { result ≡ length (refusal_lines number) }
    ensures lent { out.new ≡ sets out.old 0 (refusal_lines number) }
{
    calls::put(out, 0, b"refused\n");
    let digits = text::put_decimal(out, 8, u16::from(number));
    calls::put(out, 8 + digits, b"\n");
    9 + digits
}
