// The board, tick by tick: a state, and the calls that start it, release a row and make a tick.
#![tactic(auto)]

ghost use Rattle.std.specs.Prelude.{◌≡◌};
ghost use Rattle.board.specs.States.{is_absent, is_waiting, is_memory, start_set, zero_state};
ghost use Rattle.board.specs.Calls.{start_reading, start_of, release_of, tick_of};

use sheet::{Reading, Reason, Refusal, Set};

mod rules;
mod shape;

// The clock's limit.
const MOST_CLOCK: u32 = 1000000000;

// A job is waiting, in memory, in computation, or absent; in memory and in computation with the ticks left.
#[derive(Clone, Copy)]
pub enum Standing {
    Absent,
    Waiting,
    Memory(u32),
    Computation(u32),
}

impl Standing {
    fn is_absent(self) -> bool
        ensures { result ≡ is_absent self }
    {
        matches!(self, Standing::Absent)
    }

    fn is_waiting(self) -> bool
        ensures { result ≡ is_waiting self }
    {
        matches!(self, Standing::Waiting)
    }

    fn is_memory(self) -> bool
        ensures { result ≡ is_memory self }
    {
        matches!(self, Standing::Memory(_))
    }
}

// What is kept for a row. `ever` and `last` are no `Option`: a state may come in that has a release for a row never released.
#[derive(Clone, Copy)]
pub struct Job {
    pub ever: bool,
    pub last: u32,
    pub standing: Standing,
    pub worst: u32,
    pub completed: u32,
}

// Never released, and absent.
const NO_JOB: Job = Job {
    ever: false,
    last: 0,
    standing: Standing::Absent,
    worst: 0,
    completed: 0,
};

// For each processor the row in hand on it, or none, and for each row what is kept for it.
#[derive(Clone, Copy)]
pub struct State {
    pub set: Set,
    pub clock: u32,
    pub hands: [Option<u32>; 8],
    pub jobs: [Job; 32],
}

// A refused start, release or tick hands back a state beside its refusal, so each is a struct with a `Result` in it, and named for its
// call.
#[derive(Clone, Copy)]
pub struct Started {
    pub state: State,
    pub refusal: Result<(), Refusal>,
}

#[derive(Clone, Copy)]
pub struct Released {
    pub state: State,
    pub answer: Result<(), Refusal>,
}

// What an accepted tick names: the processor that had the token, or none, and the rows that completed, bit i for row i.
#[derive(Clone, Copy)]
pub struct Beat {
    pub token: Option<u8>,
    pub completed: u32,
}

#[derive(Clone, Copy)]
pub struct Ticked {
    pub state: State,
    pub answer: Result<Beat, Refusal>,
}

// What a processor's turn leaves: the job, the row still in hand, none where it completed, and whether it had the token, which it may
// have had in either case.
#[derive(Clone, Copy)]
struct Turn {
    job: Job,
    hand: Option<u32>,
    token: bool,
}

// A fresh start over a set. The jobs of the rows are stored once more, in the state itself and at places that are known only when
// it runs: a state made of repeats alone would be held in hundreds of pieces, and every copy of it would be slow.
fn fresh(set: Set) -> State
    ensures { result ≡ start_set set }
{
    let mut state = State {
        set,
        clock: 0,
        hands: [None; 8],
        jobs: [NO_JOB; 32],
    };
    for i in 0..set.count.min(32) {
        state.jobs[i] = NO_JOB;
    }
    state
}

// The all-zero state: a refused start hands it back, and every call on it is refused.
pub fn no_state() -> State
    ensures { result ≡ zero_state }
{
    fresh(sheet::no_set())
}

// A start from what was read, however it was read. A refusal that carries 0 is none.
#[tactic(auto, unfolding(crate::specs::Calls::start_reading))]
pub fn start_reading(reading: Reading) -> Started
    ensures { result ≡ start_reading reading }
{
    let refusal = reading.refusal;
    let accepted = match refusal {
        Ok(()) => true,
        Err(refusal) => refusal.number == 0,
    };
    let state = if accepted {
        fresh(reading.set)
    } else {
        no_state()
    };
    Started { state, refusal }
}

#[tactic(auto, unfolding(crate::specs::Calls::start_of))]
pub fn start(sheet: &[u8]) -> Started
    ensures { result ≡ start_of sheet.now }
{
    start_reading(sheet::read(sheet))
}

// Whether a state has the shape: its head, then each row below n, then each past n, then each hand. `$each` is done for every row
// below n that fits. The loops are written out where the check is asked for, over the copies that the move then changes: a function
// that is handed them would copy them again; each goes over two arrays at once. Here and in a tick `as` narrows what is shown to fit,
// or makes a `usize`, which has no `From` of a `u32`.
macro_rules! has_shape {
    ($set:ident, $clock:ident, $hands:ident, $jobs:ident, |$i:ident, $on:ident, $job:ident| $each:expr) => {
        'check: {
            let processors = $set.processors;
            let count = $set.count;
            if !shape::head_fits(processors, count, $clock) {
                break 'check false;
            }
            let mut before = 0;
            for $i in 0..count {
                let row = $set.rows[$i];
                let $job = $jobs[$i];
                let $on = usize::from(row.processor % 8);
                if !shape::part_fits(processors, before, $clock, $i as u32, row, $hands[$on], $job) {
                    break 'check false;
                }
                $each;
                before = row.processor;
            }
            for i in count..32 {
                if !shape::part_is_zero($set.rows[i], $jobs[i]) {
                    break 'check false;
                }
            }
            for h in 0..8 {
                let hand = $hands[h];
                let k = (hand.unwrap_or(0) % 32) as usize;
                if !shape::hand_is_own(hand, $set.rows[k].processor, h, count, processors) {
                    break 'check false;
                }
            }
            true
        }
    };
}

impl State {
    // One pass over the rows, the check's, gathers each processor's waiting rows in a word; after the check one pass over the
    // processors, highest rank first, has each take, gives the token to the first in memory, and steps and completes. There is one
    // way out: a second would copy the state once more.
    pub fn tick(self) -> Ticked
        ensures { result ≡ tick_of self }
    {
        let set = self.set;
        let mut clock = self.clock;
        let mut hands = self.hands;
        let mut jobs = self.jobs;
        let mut masks = [0u32; 8];
        let fits = has_shape!(set, clock, hands, jobs, |i, on, job| {
            if job.standing.is_waiting() {
                masks[on] |= 1u32 << i as u32;
            }
        });
        let answer = match rules::tick_fault(fits, clock) {
            Ok(()) => {
                let mut token = None;
                let mut completed: u32 = 0;
                for p in 0..8 {
                    let k = hands[p].unwrap_or(masks[p].trailing_zeros());
                    if k < 32 {
                        let i = k as usize;
                        let turn = jobs[i].turned(k, set.rows[i], token.is_none(), clock);
                        jobs[i] = turn.job;
                        hands[p] = turn.hand;
                        if turn.token {
                            token = Some(p as u8);
                        }
                        if turn.hand.is_none() {
                            completed |= 1u32 << k;
                        }
                    }
                }
                clock += 1;
                Ok(Beat { token, completed })
            }
            Err(reason) => Err(Refusal::new(reason, 0)),
        };
        Ticked {
            state: State {
                set,
                clock,
                hands,
                jobs,
            },
            answer,
        }
    }

    pub fn release(self, row: usize) -> Released
        ensures { result ≡ release_of self row }
    {
        let set = self.set;
        let clock = self.clock;
        let hands = self.hands;
        let mut jobs = self.jobs;
        let fits = has_shape!(set, clock, hands, jobs, |i, on, job| {});
        let fault = if !fits {
            Err(Reason::State)
        } else if set.count <= row {
            Err(Reason::Row)
        } else {
            let job = jobs[row];
            let fault = job.release_fault(clock, set.rows[row].period);
            if fault.is_ok() {
                jobs[row] = job.released(clock);
            }
            fault
        };
        Released {
            state: State {
                set,
                clock,
                hands,
                jobs,
            },
            answer: sheet::at_row(fault, 0),
        }
    }
}
