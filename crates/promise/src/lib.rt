// Demand 3: what is sent is what is read. The crate has no code: the statement stands in specs/, its proof in proofs/.
#![tactic(auto)]
