// The whole of an input: in the programs, of standard input.
#![tactic(auto)]

ghost use Rattle.io.specs.Counts.{IsPrefixLen};

use std::io::Read;

// Reads the input to its end, or until the buffer is full; the answer is how many bytes were read. Where a read
// fails the input is unknown, so none of it counts: what came before may be half of it. No other method of `Read` says
// how much came into a lent buffer (`read_exact` wants it full, `read_to_end` a heap), so the loop calls `read` itself.
pub fn read_input<R: Read>(input: &mut R, buffer: &mut [u8]) -> usize
    ensures { IsPrefixLen result buffer.new }
{
    let mut at: usize = 0;
    while at < buffer.len() {
        match input.read(&mut buffer[at..]) {
            Ok(0) => return at,
            Ok(more) => at += more,
            Err(_) => return 0,
        }
    }
    at
}
