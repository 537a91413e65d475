// The compose program: a sheet as text on standard input, its bytes on standard output. A refusal is one line on standard
// error, and nothing is then on standard output: what stands there is a sheet or nothing.
#![tactic(auto)]

use sheet_text::{Answer, Refused};
use std::io::{Print, Result, Stderr};

// Every line fits its buffer: `answer_fits` in the proofs of sheet_text shows it.
fn print_refusal(errors: Stderr, refused: Refused) -> Result<()> {
    let mut line = io::buffer();
    let end = sheet_text::put_answer(&mut line, 0, Answer::from(refused));
    errors.write_all(&line[..end])
}

// An input that fills these 65,536 bytes is longer than a text may be, however it goes on. Every sheet fits its buffer:
// `compose_length` in the proofs of sheet_text shows it.
fn main(rt: HostRuntime) -> Result<()> {
    let mut text = io::large_buffer();
    let count = input::read_input(&mut rt.stdin(), &mut text);
    let mut sheet = io::buffer();
    match sheet_text::compose(&text[..count], &mut sheet) {
        Ok(length) => rt.stdout().write_all(&sheet[..length]),
        Err(refused) => print_refusal(rt.stderr(), refused),
    }
}
