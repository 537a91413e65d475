// Numbers out of a case's bytes, the numbers that say an answer and a row, and what a lent buffer holds.
// `as` stands where a number is shown to fit, and where a `usize` is met, which has no `From`.

use sheet::{Refusal, Row};

// The big-endian number in the bytes.
pub fn number_in(bytes: &[u8]) -> u64 {
    bytes
        .iter()
        .fold(0, |number, byte| (number << 8) | u64::from(*byte))
}

// As the benchmark has it for its digest, where it is proved. What an answer carries: a refusal's three numbers, or 0 in each where a
// call was accepted.
pub fn of_answer(answer: Result<(), Refusal>) -> [u64; 3] {
    match answer {
        Ok(()) => [0; 3],
        Err(refusal) => [
            u64::from(refusal.number),
            refusal.row as u64,
            u64::from(refusal.instance),
        ],
    }
}

pub fn of_row(row: Row) -> [u64; 5] {
    [
        u64::from(row.processor),
        u64::from(row.memory),
        u64::from(row.computation),
        u64::from(row.period),
        u64::from(row.deadline),
    ]
}

// A buffer to be written to: no byte is like its neighbours, so that one out of place shows.
pub fn fill(buffer: &mut [u8]) {
    for (i, byte) in buffer.iter_mut().enumerate() {
        *byte = (i % 251) as u8;
    }
}
