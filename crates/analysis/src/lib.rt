// The response-time analysis: a row's bound from the few numbers that its sums need, the rows of a set in order, and the
// call on a sheet and a lent buffer.
#![tactic(auto)]

mod entries;
mod solving;

ghost use Rattle.std.specs.Prelude.{◌≡◌, max, ◌*◌, ◌≤◌, eqb, length};
ghost use Rattle.laws.specs.Choice.{pick};
ghost use Rattle.sheet.specs.Refusals.{answered};
ghost use Rattle.sheet.specs.Ranges.{length_of, most_ticks, WellFormed};
ghost use Rattle.analysis.specs.Bounds.{fault_at};
ghost use Rattle.analysis.specs.Analysis.{refusal_of, reading_refusal, reading_bounds, analyse_refusal, analysed};
ghost use Rattle.analysis.specs.Parts.{Blocks, Answers, WellRead};

use entries::Entry;
use sheet::{Reading, Reason, Refusal, Row, Set};
use solving::Equations;

// Why a row has no bound: no busy length within the limit, or an instance that passes the deadline.
#[derive(Clone, Copy, Debug, PartialEq, Eq)]
pub enum Fault {
    Busy,
    Late(u32),
}

impl Fault {
    fn refusal(self, row: usize) -> Refusal
        ensures { result ≡ refusal_of (fault_at row self) }
    {
        match self {
            Fault::Busy => Refusal::new(Reason::Busy, row),
            Fault::Late(instance) => Refusal {
                instance,
                ..Refusal::new(Reason::Late, row)
            },
        }
    }
}

// B of a row of processor p, from the row below it and that row's own B.
fn blocked_by(p: u8, lower: Row, below: u32) -> u32
    requires { length_of lower ≤ 2 * most_ticks }
    ensures { result ≡ pick (eqb lower.processor p) (max below (length_of lower)) 0 }
{
    if lower.processor == p {
        below.max(lower.memory + lower.computation)
    } else {
        0
    }
}

// B of every row, from the last one up.
fn blockings(set: Set) -> [u32; 32]
    requires { WellFormed set }
    ensures { Blocks set result }
{
    let mut blocked = [0; 32];
    for j in (1..set.count).rev() {
        let p = set.rows[j - 1].processor;
        blocked[j - 1] = blocked_by(p, set.rows[j], blocked[j]);
    }
    blocked
}

// The rows in order. Where a row's processor is another than the one before, all rows so far outrank it. The bounds go into an array
// that is lent: a `Result` with the array in it is copied in many pieces.
fn work(set: Set, bounds: &mut [u32; 32]) -> Result<(), Refusal>
    requires { WellFormed set }
    ensures { Answers set bounds.new result }
{
    let blocked = blockings(set);
    // The higher rows of the own processor, and the rows that ask for memory: the first `ranked` of these outrank it, and
    // the first `pending` the processors to come. There is no heap, so they are arrays with those numbers beside.
    let mut own = [Entry::NONE; 32];
    let mut asking = [Entry::NONE; 32];
    let mut rank = 0;
    let mut ranked = 0;
    let mut pending = 0;
    let mut first = 0;
    for i in 0..set.count {
        let row = set.rows[i];
        if row.processor != rank {
            rank = row.processor;
            ranked = pending;
            first = i;
        }
        let equations = Equations {
            ranked: &asking[..ranked],
            higher: &own[..i - first],
            row,
            blocked: blocked[i],
        };
        let bound = equations.verdict().map_err(|fault| fault.refusal(i))?;
        bounds[i] = bound;
        own[i - first] = Entry::higher(row);
        if row.memory != 0 {
            asking[pending] = Entry::ranked(row, bound);
            pending += 1;
        }
    }
    Ok(())
}

// What was read, then 12, then the rows in order, each 10 before 11; a refusal writes nothing.
fn analyse_reading(reading: Reading, bounds: &mut [u32]) -> Result<(), Refusal>
    requires { WellRead reading }
    ensures value { result ≡ answered (reading_refusal reading (length bounds.old)) }
    ensures bounds_after { bounds.new ≡ reading_bounds reading bounds.old }
{
    reading.refusal?;
    let set = reading.set;
    let n = set.count;
    if bounds.len() < n {
        return Err(Refusal::new(Reason::Room, 0));
    }
    let mut found = [0; 32];
    work(set, &mut found)?;
    bounds[..n].copy_from_slice(&found[..n]);
    Ok(())
}

// Reading, then the analysis of what was read.
pub fn analyse(sheet: &[u8], bounds: &mut [u32]) -> Result<(), Refusal>
    ensures value { result ≡ answered (analyse_refusal sheet.now (length bounds.old)) }
    ensures bounds_after { bounds.new ≡ analysed sheet.now bounds.old }
{
    analyse_reading(sheet::read(sheet), bounds)
}
