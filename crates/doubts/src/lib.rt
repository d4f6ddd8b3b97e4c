// When a bit is told as doubtful, and that a line inside the margin never shows one. The crate has no code: the statements stand in
// specs/, their proofs in proofs/.
#![tactic(auto)]
