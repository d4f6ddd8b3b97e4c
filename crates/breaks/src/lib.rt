// A break that is held is read as one event. The crate has no code: the statements stand in specs/, their proofs in proofs/.
#![tactic(auto)]
