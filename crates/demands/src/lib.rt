// The three demands of the specification, as three theorems; no code. Read specs/Demand1, Demand2 and Demand3 first.
#![tactic(auto)]
