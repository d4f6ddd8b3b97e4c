// What is sent is what a tap reads in the sending's band. The crate has no code: the statements stand in specs/, their proofs in proofs/.
#![tactic(auto)]
