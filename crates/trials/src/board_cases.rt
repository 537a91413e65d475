// The cases of the board: a sheet's length (2 bytes), the sheet, and commands. Starts the board with
// the sheet and carries the commands out.
//   P  prints the start's refusal and the digest.
//   Q  prints the start's refusal; of each release its number, of each tick its number, the token's
//      processor (256: none) and the completed rows; and then the digest.
// A command is a letter and its numbers:
//   t              a tick
//   n  2 bytes     that many ticks
//   r  1 byte      a release of that row;  R with 8 bytes
//   p  1, 1, 8     one field of the state is set (`poke`): field, index, value
//   k              the state is kept aside
//   b              the state is what was last kept aside, or the fresh start
// The digest goes over the start's refusal and state, and each call's answer and state; of n, over
// all the answers and then the last state.
// `as` stands where a number is shown to fit, and where a `usize` is met, which has no `From`.
use crate::digest::Digest;
use crate::line::Line;
use crate::numbers;
use crate::poke::poke;
use board::{Beat, Job, Standing, Started, State};
use sheet::Refusal;

// Past every processor.
const NOBODY: u64 = 256;

#[derive(Drop)]
struct Play {
    state: State,
    kept: State,
    digest: Digest,
}

// As `poke` takes it.
fn number_of_hand(hand: Option<u32>) -> u64 {
    hand.map_or(1 << 32, u64::from)
}

// As `poke` takes it: what it is in the upper half, the ticks left in the lower.
fn number_of_standing(standing: Standing) -> u64 {
    match standing {
        Standing::Absent => 0,
        Standing::Waiting => 1 << 32,
        Standing::Memory(left) => 2 << 32 | u64::from(left),
        Standing::Computation(left) => 3 << 32 | u64::from(left),
    }
}

fn numbers_of_job(job: Job) -> [u64; 5] {
    [
        u64::from(job.ever),
        u64::from(job.last),
        number_of_standing(job.standing),
        u64::from(job.worst),
        u64::from(job.completed),
    ]
}

// What is printed of a tick: its number, the token's processor and the completed rows.
fn numbers_of_beat(answer: Result<Beat, Refusal>) -> [u64; 3] {
    match answer {
        Ok(beat) => [
            0,
            beat.token.map_or(NOBODY, u64::from),
            u64::from(beat.completed),
        ],
        Err(refusal) => [u64::from(refusal.number), NOBODY, 0],
    }
}

fn take_state(digest: &mut Digest, state: &State) {
    digest.take_all(&[u64::from(state.set.processors), state.set.count as u64]);
    digest.take_rows(&state.set.rows);
    digest.take(u64::from(state.clock));
    digest.take_all(&state.hands.map(number_of_hand));
    for job in &state.jobs {
        digest.take_all(&numbers_of_job(*job));
    }
}

fn take_beat(digest: &mut Digest, answer: Result<Beat, Refusal>) {
    let [_, token, completed] = numbers_of_beat(answer);
    digest.take_all(&numbers::of_answer(answer.map(|_| ())));
    digest.take_all(&[token, completed]);
}

impl Play {
    fn new(started: Started) -> Play {
        let mut digest = Digest::of(&numbers::of_answer(started.refusal));
        take_state(&mut digest, &started.state);
        Play {
            state: started.state,
            kept: started.state,
            digest,
        }
    }

    fn tick(&mut self) -> Result<Beat, Refusal> {
        let ticked = self.state.tick();
        self.state = ticked.state;
        take_beat(&mut self.digest, ticked.answer);
        ticked.answer
    }

    // Each answer is told; then the digest takes in the state. Whoever is handed `tell` has to ask that it may be called.
    fn ticks<F: Fn(&mut Line, &[u64])>(&mut self, line: &mut Line, count: u64, tell: &F)
        requires { F.IsAlwaysCallable tell.now }
    {
        for _ in 0..count {
            tell(line, &numbers_of_beat(self.tick()));
        }
        take_state(&mut self.digest, &self.state);
    }

    fn release<F: Fn(&mut Line, &[u64])>(&mut self, line: &mut Line, row: usize, tell: &F)
        requires { F.IsAlwaysCallable tell.now }
    {
        let released = self.state.release(row);
        let [number, row, instance] = numbers::of_answer(released.answer);
        self.state = released.state;
        self.digest.take_all(&[number, row, instance]);
        tell(line, &[number]);
        take_state(&mut self.digest, &self.state);
    }

    fn poke(&mut self, said: &[u8]) {
        if let [field, index, value @ ..] = said {
            let value = numbers::number_in(value);
            poke(&mut self.state, *field, usize::from(*index), value);
        }
    }

    fn carry_out<F: Fn(&mut Line, &[u64])>(
        &mut self,
        line: &mut Line,
        letter: u8,
        said: &[u8],
        tell: &F,
    )
        requires { F.IsAlwaysCallable tell.now }
    {
        match letter {
            b't' => self.ticks(line, 1, tell),
            b'n' => self.ticks(line, numbers::number_in(said), tell),
            b'r' | b'R' => self.release(line, numbers::number_in(said) as usize, tell),
            b'p' => self.poke(said),
            b'k' => self.kept = self.state,
            b'b' => self.state = self.kept,
            _ => {}
        }
    }

    // Up to a command whose numbers are cut off. Commands differ in length, so the loop goes by what is left.
    fn carry_out_all<F: Fn(&mut Line, &[u64])>(
        &mut self,
        line: &mut Line,
        commands: &[u8],
        tell: &F,
    )
        requires { F.IsAlwaysCallable tell.now }
    {
        let mut left = commands;
        while let Some((letter, rest)) = left.split_first() {
            let Some((said, after)) = rest.split_at_checked(length_of(*letter)) else {
                return;
            };
            self.carry_out(line, *letter, said, tell);
            left = after;
        }
    }
}

// How many bytes follow a command's letter.
fn length_of(letter: u8) -> usize {
    match letter {
        b'n' => 2,
        b'r' => 1,
        b'R' => 8,
        b'p' => 10,
        _ => 0,
    }
}

// It asks that `tell` may be called, as whoever is handed a function has to.
pub fn put_play<F: Fn(&mut Line, &[u64])>(line: &mut Line, case: &[u8], tell: F)
    requires { F.IsAlwaysCallable tell }
{
    let Some((length, rest)) = case.split_at_checked(2) else {
        return;
    };
    let Some((sheet, commands)) = rest.split_at_checked(numbers::number_in(length) as usize) else {
        return;
    };
    let started = board::start(sheet);
    line.put_numbers(&numbers::of_answer(started.refusal));
    let mut play = Play::new(started);
    play.carry_out_all(line, commands, &tell);
    line.put_digest(play.digest);
}
