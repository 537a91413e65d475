// The list program: a sheet on standard input, the same as text on standard output, or its refusal there.
#![tactic(auto)]

use std::io::{Print, Result};

// An input that fills these 65,536 bytes is longer than a sheet can state, however it goes on. Every text fits its buffer:
// `list_fits` in the proofs of sheet_text shows it. `bounds` has the same few lines, and says why.
fn main(rt: HostRuntime) -> Result<()> {
    let mut sheet = io::large_buffer();
    let count = input::read_input(&mut rt.stdin(), &mut sheet);
    let mut text = io::buffer();
    let end = sheet_text::list(&sheet[..count], &mut text);
    rt.stdout().write_all(&text[..end])
}
