// One program behind the other: `demodulate` gives back every message that `modulate` takes. The crate has no code: the theorem stands in
// specs/, its proof in proofs/.
#![tactic(auto)]
