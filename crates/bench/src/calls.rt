// Many calls on one board, so that the loop around them stands on this side. The number that comes out is a digest of every
// answer and of the state reached: two programs that made the same calls can be compared by it.
ghost use Rattle.std.specs.Prelude.{◌≡◌, ◌%◌};
ghost use Rattle.sheet.specs.Ranges.{most_rows};
ghost use Rattle.board.specs.Calls.{said};
ghost use Rattle.bench.specs.Calls.{token_number, mix_beat, mix_job, mix_jobs, with_calls, begin, outcome};

use crate::answers::number_of;
use crate::digest::mixed;
use board::{Beat, Job, State};
use sheet::Refusal;

// Each of these carries out one definition of the specs, so they are not one.
fn token_number(token: Option<u8>) -> u32
    ensures { result ≡ token_number token }
{
    token.map_or(8, u32::from)
}

#[tactic(auto, unfolding(crate::specs::Calls::mix_beat))]
pub fn beat_mixed(digest: u32, refusal: Refusal, token: Option<u8>, completed: u32) -> u32
    ensures { result ≡ mix_beat digest (record { refusal = refusal; token = token; completed = completed }) }
{
    let answered = mixed(digest, u32::from(refusal.number));
    let held = mixed(answered, token_number(token));
    mixed(held, completed)
}

pub fn tick_mixed(digest: u32, answer: Result<Beat, Refusal>) -> u32
    ensures { result ≡ mix_beat digest (said answer) }
{
    match answer {
        Ok(beat) => beat_mixed(digest, sheet::refuse(0, 0), beat.token, beat.completed),
        Err(refusal) => beat_mixed(digest, refusal, None, 0),
    }
}

#[tactic(auto, unfolding(crate::specs::Calls::mix_job))]
fn job_mixed(digest: u32, job: Job) -> u32
    ensures { result ≡ mix_job digest job }
{
    let released = mixed(digest, job.last);
    let answered = mixed(released, job.worst);
    mixed(answered, job.completed)
}

#[tactic(auto, unfolding(crate::specs::Calls::mix_jobs))]
pub fn state_mixed(digest: u32, s: State) -> u32
    ensures { result ≡ mix_jobs digest s most_rows }
{
    let mut sum = mixed(digest, s.clock);
    for job in s.jobs {
        sum = job_mixed(sum, job);
    }
    sum
}

// Where a call stands in its round. A round of no calls is one round without end.
pub fn place_in(round: u32, call: u32) -> u32
    ensures { result ≡ call % round }
{
    call.checked_rem(round).unwrap_or(call)
}

// The call at a place of its round, which is cast: a `usize` has no `From`. It is a macro, so that each loop calls the board by itself:
// a function that is handed the state was tried, and is slower by a tenth to a half. A tick's state is kept before its answer is mixed:
// the other way round was slower by a fifth.
#[macro_export]
macro_rules! make_call {
    ($state:ident, $digest:ident, $place:ident, $releases:ident) => {
        if $place < $releases {
            let released = $state.release($place as usize);
            $digest = $crate::digest::mixed($digest, $crate::answers::number_of(released.answer));
            $state = released.state;
        } else {
            let ticked = $state.tick();
            $state = ticked.state;
            $digest = $crate::calls::tick_mixed($digest, ticked.answer);
        }
    };
}

#[tactic(auto, unfolding(crate::specs::Calls::with_calls, crate::specs::Calls::with_call, crate::specs::Calls::with_release, crate::specs::Calls::with_tick, crate::specs::Calls::begin, crate::specs::Calls::outcome))]
pub fn bench_board(sheet: &[u8], releases: u32, round: u32, calls: u32) -> u32
    ensures { result ≡ outcome (with_calls releases round calls (begin sheet.now)) }
{
    let started = board::start(sheet);
    let mut state = started.state;
    let mut digest = number_of(started.refusal);
    for call in 0..calls {
        let place = place_in(round, call);
        make_call!(state, digest, place, releases);
    }
    state_mixed(digest, state)
}
