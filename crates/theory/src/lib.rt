// Memory-centric scheduling over numbers alone: on every board that keeps the rules, each job ends within the bound that
// the analysis gives its row. What is said stands in specs/, the argument in proofs/: this crate has no function.
#![tactic(auto)]
