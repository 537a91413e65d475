// The bounds program: a sheet on standard input, its bounds or its refusal on standard output.
#![tactic(auto)]

use std::io::{Print, Result};

// A sheet states its length in two bytes, so none is longer than 65,535. An input that fills these 65,536 bytes is longer
// than what it states, however it goes on, and the refusal of its first bytes is that of the whole. Every text fits its
// buffer: `report_fits` in the proofs of the report shows it. `list` has the same few lines: they stand whole in each program,
// since no contract says what a program reads and prints.
fn main(rt: HostRuntime) -> Result<()> {
    let mut sheet = io::large_buffer();
    let count = input::read_input(&mut rt.stdin(), &mut sheet);
    let mut text = io::buffer();
    let end = report::report(&sheet[..count], &mut text);
    rt.stdout().write_all(&text[..end])
}
