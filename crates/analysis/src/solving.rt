// A row's equations, solved: its busy length, each instance's start and memory end, and what the row comes to.

ghost use Rattle.std.specs.Prelude.{◌≤◌, length};
ghost use Rattle.analysis.specs.Entries.{places, Fit};

use crate::Fault;
use crate::entries::Entry;
use sheet::Row;

const LIMIT: u64 = 4000000;

// The least solution of an equation, and what of it is work of the own processor.
#[derive(Clone, Copy)]
pub struct Solved {
    pub at: u32,
    pub work: u64,
}

// What the equations of a row are made of: the rows of higher-ranked processors and the higher rows of its own, the row
// itself and its B.
#[derive(Clone, Copy)]
pub struct Equations<'a> {
    pub ranked: &'a [Entry],
    pub higher: &'a [Entry],
    pub row: Row,
    pub blocked: u32,
    ghost few_ranked: { length ranked.now ≤ places },
    ghost few_higher: { length higher.now ≤ places },
    ghost fit: { Fit row blocked },
}

impl Equations<'_> {
    ghost use Rattle.std.specs.Prelude.{◌≡◌, ◌+◌};
    ghost use Rattle.analysis.specs.Equations.{limit, busy_at, busy_length, instances_in, memory_end, judged, verdict_of};
    ghost use Rattle.analysis.specs.Entries.{entry_sum, climb_at};
    ghost use Rattle.analysis.specs.Parts.{said, solution, Warm, Turn};

    // The right side of the busy length's equation at x. Rounding x up is rounding x - 1 down, plus 1: the sum that a start
    // asks for, one tick earlier.
    fn busy_at(&self, x: u32) -> u64
        requires { (1 ≤ x) × (x ≤ limit) }
        ensures { result ≡ busy_at (said self.now) x }
    {
        let itself = Entry::higher(self.row).term(x - 1);
        let above = Entry::sum(self.higher, x - 1);
        let token = Entry::sum(self.ranked, x);
        u64::from(self.blocked) + (above + itself) + token
    }

    // A climb, as in `solve`: nothing counts its steps.
    fn busy_length(&self) -> Option<u32>
        ensures { result ≡ busy_length (said self.now) }
    {
        let mut x: u64 = 1;
        while x <= LIMIT {
            // Here and below `as` narrows what is shown to fit.
            let y = self.busy_at(x as u32);
            if y == x {
                return Some(x as u32);
            }
            x = y;
        }
        None
    }

    // The climb to a solution that is known to exist: a start, or with no higher rows a memory end.
    fn solve(&self, higher: &[Entry], fixed: u64, from: u32) -> Solved
        requires few { length higher.now ≤ places }
        requires warm { Warm (climb_at self.now.ranked.now higher.now fixed) from }
        ensures at { result.at ≡ solution (climb_at self.now.ranked.now higher.now fixed) }
        ensures work { result.work ≡ fixed + entry_sum higher.now result.at }
    {
        let mut x = from;
        loop {
            let work = fixed + Entry::sum(higher, x);
            let y = work + Entry::sum(self.ranked, x);
            if y == u64::from(x) {
                return Solved { at: x, work };
            }
            x = y as u32;
        }
    }

    // The memory end of instance q; its start is looked for from `from` on.
    fn memory_end(&self, q: u32, from: u32) -> u32
        requires { Turn (said self.now) q from }
        ensures { result ≡ memory_end (said self.now) q }
    {
        let memory = self.row.memory;
        let length = u64::from(memory) + u64::from(self.row.computation);
        let fixed = u64::from(self.blocked) + u64::from(q) * length;
        let start = self.solve(self.higher, fixed, from);
        if memory == 0 {
            return start.at;
        }
        self.solve(&[], start.work + u64::from(memory), start.at + memory)
            .at
    }

    // The instances of a busy length: the first that is late, or the largest response. Each start is looked for from the
    // finish before it.
    fn instances(&self, length: u32) -> Result<u32, Fault>
        requires { busy_length (said self.now) ≡ Some length }
        ensures { result ≡ judged (said self.now) self.now.row.deadline (instances_in (said self.now) length) }
    {
        let Row {
            period,
            deadline,
            computation,
            ..
        } = self.row;
        // No `div_ceil`: its clause rounds up by the remainder, and the definition as here.
        let n = (length + period - 1) / period;
        let mut best: u32 = 0;
        let mut from = 0;
        for q in 0..n {
            let finish = self.memory_end(q, from) + computation;
            let response = finish - q * period;
            if deadline < response {
                return Err(Fault::Late(q));
            }
            best = best.max(response);
            from = finish;
        }
        Ok(best)
    }

    // What the row comes to.
    pub fn verdict(&self) -> Result<u32, Fault>
        ensures { result ≡ verdict_of (said self.now) self.now.row.deadline }
    {
        let length = self.busy_length().ok_or(Fault::Busy)?;
        self.instances(length)
    }
}
