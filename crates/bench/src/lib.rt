// The proved calls that the benchmark times. The crate bench_c exports them to C.
#![tactic(auto)]

pub mod analyses;
pub mod answers;
pub mod calls;
pub mod digest;
pub mod readings;
