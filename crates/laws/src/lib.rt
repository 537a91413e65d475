// The mathematics that the crates above share stands in specs/: this crate has no function.
#![tactic(auto)]
