// A number's digits put into a buffer, and the front of a text.
#![tactic(auto)]

ghost use Rattle.std.specs.Prelude.{◌≡◌, length};
ghost use Rattle.std.proofs.lemmas.List.Edits.{sets};
ghost use Rattle.digits.specs.Numbers.{decimal};
ghost use Rattle.text.specs.Bytes.{starts_with};

// Puts the decimal digits of a number into a buffer from the place `at` on, and gives their count, with those for which there is no place.
#[tactic(auto, using(digits::proofs::Numbers::by_library))]
pub fn put_decimal(out: &mut [u8], at: usize, n: u16) -> usize
    ensures count { result ≡ length (decimal n) }
    ensures lent { out.new ≡ sets out.old at (decimal n) }
{
    let mut buffer = itoa::Buffer::new();
    let digits = buffer.format(n).as_bytes();
    calls::put(out, at, digits);
    digits.len()
}

// A text begins with these bytes.
#[tactic(auto, using(crate::proofs::Bytes::starts_pointwise))]
pub fn starts_with(text: &[u8], front: &[u8]) -> bool
    ensures { result ≡ starts_with front.now text.now }
{
    text.starts_with(front)
}
