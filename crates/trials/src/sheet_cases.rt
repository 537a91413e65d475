// The cases of the sheet.
//   R  a sheet: prints refusal, processors, count, digest of all fields of all 32 rows.
//   F  a sheet: the same, and then all those fields.
//   S  a row number (8 bytes), a sheet: prints the shown part's length, its bytes and its row.
//   W  a buffer's length (2 bytes), processors (1 byte), count (8 bytes), rows: writes the set of
//      these to a buffer whose byte i is i modulo 251, and prints refusal and digest of the buffer.
//   V  the same, and then all of the buffer.
// `as` stands where a number is shown to fit, and where a `usize` is met, which has no `From`.
use crate::digest::Digest;
use crate::line::Line;
use crate::numbers;
use sheet::{Row, Set};
use std::array;

const MOST_ROWS: usize = 32;

const RECORD: usize = 17;

// What stands before the rows of a set.
const HEAD: usize = 11;

pub fn put_rows(line: &mut Line, rows: &[Row]) {
    for row in rows {
        line.put_numbers(&numbers::of_row(*row));
    }
}

// Whoever is handed a function has to ask that it may be called, here and in `put_set`.
pub fn put_reading<F: Fn(&mut Line, &[Row])>(line: &mut Line, sheet: &[u8], then: F)
    requires { F.IsAlwaysCallable then }
{
    let reading = sheet::read(sheet);
    let set = reading.set;
    let mut digest = Digest(0);
    digest.take_rows(&set.rows);
    line.put_numbers(&numbers::of_answer(reading.refusal));
    line.put_numbers(&[u64::from(set.processors), set.count as u64]);
    line.put_digest(digest);
    then(line, &set.rows);
}

pub fn put_shown(line: &mut Line, case: &[u8]) {
    let Some((row, sheet)) = case.split_at_checked(8) else {
        return;
    };
    let part = sheet::show(sheet, numbers::number_in(row) as usize);
    line.put_number(part.len() as u64);
    line.put_bytes(part);
    line.put_numbers(&numbers::of_row(sheet::row_of(part)));
}

// The rows that lie whole in the case; past them all is 0.
fn rows_of(case: &[u8]) -> [Row; MOST_ROWS] {
    let mut rows = [sheet::no_row(); MOST_ROWS];
    if let Some(records) = case.get(HEAD..) {
        for (row, record) in rows.iter_mut().zip(records.chunks_exact(RECORD)) {
            *row = sheet::row_of(record);
        }
    }
    rows
}

pub fn put_set<F: Fn(&mut Line, &[u8])>(line: &mut Line, case: &[u8], then: F)
    requires { F.IsAlwaysCallable then }
{
    // Bytes past the case's end count as 0.
    let head: [u8; HEAD] = array::from_fn(|i| case.get(i).copied().unwrap_or(0));
    let set = Set {
        processors: head[2],
        count: numbers::number_in(&head[3..]) as usize,
        rows: rows_of(case),
    };
    let mut buffer = io::buffer();
    if let Some(buffer) = buffer.get_mut(..numbers::number_in(&head[..2]) as usize) {
        numbers::fill(buffer);
        let answer = sheet::write(set, buffer);
        line.put_numbers(&numbers::of_answer(answer));
        line.put_digest(Digest::of(buffer));
        then(line, buffer);
    }
}
