// The calls of the crate bench once more, each made at two places: a call with one caller is put in its place by the compiler,
// and a program with several pays for what is handed over.
#![tactic(auto)]

ghost use Rattle.std.specs.Prelude.{◌≡◌};
ghost use Rattle.bench.specs.Calls.{with_calls, begin, outcome};

use bench::answers::number_of;
use bench::calls::{place_in, state_mixed};
use bench::make_call;

// Two loops, one for each half of the calls: of two branches in one loop the compiler could make one.
#[tactic(auto, unfolding(bench::specs::Calls::with_calls, bench::specs::Calls::with_call, bench::specs::Calls::with_release, bench::specs::Calls::with_tick, bench::specs::Calls::begin, bench::specs::Calls::outcome))]
#[unsafe(no_mangle)]
pub extern "C" fn bench_callers(sheet: &[u8], releases: u32, round: u32, calls: u32) -> u32
    ensures { result ≡ outcome (with_calls releases round calls (begin sheet.now)) }
{
    let started = board::start(sheet);
    let mut state = started.state;
    let mut digest = number_of(started.refusal);
    let half = calls / 2;
    for call in 0..half {
        let place = place_in(round, call);
        make_call!(state, digest, place, releases);
    }
    for call in half..calls {
        let place = place_in(round, call);
        make_call!(state, digest, place, releases);
    }
    state_mixed(digest, state)
}
