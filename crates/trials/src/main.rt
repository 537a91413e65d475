// Trials: runs the cases on standard input and prints one line for each, which begins with its kind.
//
// A case is its kind (1 byte), the length of its payload (3 bytes), a number of zeros (3 bytes) and
// the payload; its input is the payload followed by that many zero bytes. Every number is
// big-endian, a row is 17 bytes as in a sheet, and a digest is a `Digest` of numbers. The kinds are
// told in the files of their cases.
// `as` stands where a number is shown to fit, and where a `usize` is met, which has no `From`.
#![tactic(auto)]

mod board_cases;
mod bounds_cases;
mod digest;
mod line;
mod numbers;
mod poke;
mod sheet_cases;
mod text_cases;

ghost use Rattle.std.specs.Prelude.{◌≤◌};

use input::read_input;
use line::Line;
use std::io::{Result, Stdin, Stdout};

const HEAD: usize = 7;

const SHORT: usize = 4096;

// A sheet's stated length wraps at 65,536 bytes: some cases go past that.
const LONG: usize = 66000;

// A proved loop has to end, and nothing says that the input does.
const MOST_CASES: u64 = 100000;

// What a case begins with: its kind, and how long its payload and its input are.
#[derive(Clone, Copy)]
struct Head {
    kind: u8,
    length: usize,
    end: usize,
}

// For the kinds that print a digest alone.
fn no_more<T>(_line: &mut Line, _more: &[T]) {}

// The kind is the input's letter, as a command is among the board's cases.
fn put_case(line: &mut Line, kind: u8, case: &[u8]) {
    match kind {
        b'R' => sheet_cases::put_reading(line, case, no_more),
        b'F' => sheet_cases::put_reading(line, case, sheet_cases::put_rows),
        b'S' => sheet_cases::put_shown(line, case),
        b'W' => sheet_cases::put_set(line, case, no_more),
        b'V' => sheet_cases::put_set(line, case, |line, bytes| line.put_bytes(bytes)),
        b'A' => bounds_cases::put_bounds(line, case, no_more),
        b'B' => bounds_cases::put_bounds(line, case, |line, places| line.put_numbers(places)),
        b'P' => board_cases::put_play(line, case, no_more),
        b'Q' => board_cases::put_play(line, case, |line, answer| line.put_numbers(answer)),
        b'T' => text_cases::put_text(line, case, text_cases::put_composed),
        b'L' => text_cases::put_text(line, case, text_cases::put_listed),
        _ => {}
    }
}

fn run(output: Stdout, kind: u8, case: &[u8]) -> Result<()> {
    let mut buffer = io::buffer();
    let mut line = Line::new(&mut buffer);
    line.put_byte(kind);
    put_case(&mut line, kind, case);
    line.put_byte(b'\n');
    line.write(output)
}

fn read_head(input: &mut Stdin) -> Option<Head> {
    let mut bytes = [0; HEAD];
    if read_input(input, &mut bytes) < HEAD {
        return None;
    }
    let length = numbers::number_in(&bytes[1..4]) as usize;
    let zeros = numbers::number_in(&bytes[4..]) as usize;
    Some(Head {
        kind: bytes[0],
        length,
        end: length.saturating_add(zeros),
    })
}

// Runs the case that still has to be read, in a space of zeros; false where the input ends too soon.
fn run_in<const SPACE: usize>(rt: HostRuntime, head: Head) -> Result<bool>
    requires { SPACE ≤ LONG }
{
    let mut space = [0; SPACE];
    let Some(payload) = space.get_mut(..head.length) else {
        return Ok(false);
    };
    if read_input(&mut rt.stdin(), payload) < head.length {
        return Ok(false);
    }
    let Some(case) = space.get(..head.end) else {
        return Ok(false);
    };
    run(rt.stdout(), head.kind, case)?;
    Ok(true)
}

fn run_case(rt: HostRuntime, head: Head) -> Result<bool> {
    if head.end <= SHORT {
        run_in::<SHORT>(rt, head)
    } else {
        run_in::<LONG>(rt, head)
    }
}

fn main(rt: HostRuntime) -> Result<()> {
    for _ in 0..MOST_CASES {
        let Some(head) = read_head(&mut rt.stdin()) else {
            return Ok(());
        };
        if !run_case(rt, head)? {
            return Ok(());
        }
    }
    Ok(())
}
