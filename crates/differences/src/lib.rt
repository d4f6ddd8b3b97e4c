// What the difference beside each event is, and what it leaves as it was. The crate has no code: the statements stand in specs/, their
// proofs in proofs/.
#![tactic(auto)]
