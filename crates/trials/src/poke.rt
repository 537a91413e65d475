// One field of a state set to a value. The fields:
//   0 processors, 1 count; of row i 2 processor, 3 memory, 4 computation, 5 period, 6 deadline; 7 clock;
//   8 hand i: a row, or free where the value is 2^32 or more; of job i 9 ever (not 0), 10 last,
//   11 standing: the upper half modulo 4 says absent, waiting, memory, computation, the lower half the
//   ticks left, 12 worst, 13 completed.
// A row's or job's index counts modulo 32, a hand's modulo 8, a value modulo its field's range.
// `as` stands where a number is shown to fit, and where a `usize` is met, which has no `From`.
use board::{Job, Standing, State};
use sheet::Row;

// Two functions, since a cast has no type parameter.
fn low_word(value: u64) -> u32 {
    (value % 4294967296) as u32
}

fn low_byte(value: u64) -> u8 {
    (value % 256) as u8
}

fn poke_row(row: &mut Row, field: u8, value: u64) {
    match field {
        2 => row.processor = low_byte(value),
        3 => row.memory = low_word(value),
        4 => row.computation = low_word(value),
        5 => row.period = low_word(value),
        _ => row.deadline = low_word(value),
    }
}

fn standing_of(value: u64) -> Standing {
    let left = low_word(value);
    match (value >> 32) % 4 {
        0 => Standing::Absent,
        1 => Standing::Waiting,
        2 => Standing::Memory(left),
        _ => Standing::Computation(left),
    }
}

fn poke_job(job: &mut Job, field: u8, value: u64) {
    match field {
        9 => job.ever = value != 0,
        10 => job.last = low_word(value),
        11 => job.standing = standing_of(value),
        12 => job.worst = low_word(value),
        _ => job.completed = low_word(value),
    }
}

pub fn poke(state: &mut State, field: u8, index: usize, value: u64) {
    match field {
        0 => state.set.processors = low_byte(value),
        1 => state.set.count = value as usize,
        2..=6 => poke_row(&mut state.set.rows[index % 32], field, value),
        7 => state.clock = low_word(value),
        8 => state.hands[index % 8] = u32::try_from(value).ok(),
        9..=13 => poke_job(&mut state.jobs[index % 32], field, value),
        _ => {}
    }
}
