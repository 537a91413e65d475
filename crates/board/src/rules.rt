// What the rules of a tick make of one job.
ghost use Rattle.std.specs.Prelude.{◌≡◌, ◌≤◌};
ghost use Rattle.laws.specs.Choice.{first_of};
ghost use Rattle.sheet.specs.Refusals.{fault_number};
ghost use Rattle.board.specs.Rules.{begins, computes, fetches, steps, finished};
ghost use Rattle.board.specs.Calls.{tick_table, release_table, waiting_from};
ghost use Rattle.board.specs.Parts.{Timely, InTurn, turn_of};

use crate::{Job, Standing, Turn};
use sheet::{Reason, Row};

fn computing(left: u32) -> Standing
    ensures { result ≡ computes left }
{
    if left == 0 {
        Standing::Absent
    } else {
        Standing::Computation(left)
    }
}

fn fetching(row: Row, left: u32) -> Standing
    ensures { result ≡ fetches row left }
{
    if left == 0 {
        computing(row.computation)
    } else {
        Standing::Memory(left)
    }
}

impl Standing {
    fn begun(self, row: Row) -> Standing
        ensures { result ≡ begins row self }
    {
        if let Standing::Waiting = self {
            if row.memory == 0 {
                return Standing::Computation(row.computation);
            }
            return Standing::Memory(row.memory);
        }
        self
    }

    fn stepped(self, row: Row, token: bool) -> Standing
        ensures { result ≡ steps row «token» self }
    {
        if let Standing::Memory(left) = self {
            if token {
                return fetching(row, left.saturating_sub(1));
            }
            return self;
        }
        if let Standing::Computation(left) = self {
            return computing(left.saturating_sub(1));
        }
        self
    }
}

impl Job {
    fn finished(self, clock: u32) -> Job
        requires { Timely clock self }
        ensures { result ≡ finished clock self }
    {
        let response = clock + 1 - self.last;
        Job {
            standing: Standing::Absent,
            worst: self.worst.max(response),
            completed: self.completed + 1,
            ..self
        }
    }

    // For `tick` alone, of a live job in a state of the shape, which is checked first: there no time of a job lies past the clock.
    pub(crate) fn turned(self, k: u32, row: Row, free: bool, clock: u32) -> Turn
        requires { InTurn clock self }
        ensures { result ≡ turn_of k row self «free» clock }
    {
        let begun = self.standing.begun(row);
        let token = begun.is_memory() & free;
        let standing = begun.stepped(row, token);
        if standing.is_absent() {
            Turn {
                job: self.finished(clock),
                hand: None,
                token,
            }
        } else {
            Turn {
                job: Job { standing, ..self },
                hand: Some(k),
                token,
            }
        }
    }

    // A release makes the job waiting.
    pub(crate) fn released(self, clock: u32) -> Job
        ensures { result ≡ waiting_from clock self }
    {
        Job {
            ever: true,
            last: clock,
            standing: Standing::Waiting,
            ..self
        }
    }

    // For `release` alone, which has checked the shape first: in a state of the shape no release lies past the clock.
    pub(crate) fn release_fault(self, clock: u32, period: u32) -> Result<(), Reason>
        requires { self.last ≤ clock }
        ensures { fault_number result ≡ first_of (release_table clock period self) }
    {
        if self.ever && clock - self.last < period {
            return Err(Reason::Early);
        }
        if !self.standing.is_absent() {
            return Err(Reason::Live);
        }
        Ok(())
    }
}

pub(crate) fn tick_fault(fits: bool, clock: u32) -> Result<(), Reason>
    ensures { fault_number result ≡ first_of (tick_table «fits» clock) }
{
    if !fits {
        return Err(Reason::State);
    }
    if clock == crate::MOST_CLOCK {
        return Err(Reason::Clock);
    }
    Ok(())
}
