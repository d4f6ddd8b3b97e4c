// What a receiver decides in every window of a sending, under every disturbance up to a bound. The crate has no code: its definitions stand
// in specs/, the proofs in proofs/.
#![tactic(auto)]
