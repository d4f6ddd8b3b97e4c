// Laws of whole numbers and of lists that the library lacks. The crate has no code: its definitions stand in specs/,
// the laws in proofs/.
#![tactic(auto)]
