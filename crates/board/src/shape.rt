// The shape of a state.
ghost use Rattle.std.specs.Prelude.{◌≡◌, ◌&&◌};
ghost use Rattle.board.specs.Shape.{row_is_zero, absent_with_zeros, job_is_zero, at_most_clock, ever_or_zero, standing_fits};
ghost use Rattle.board.specs.Parts.{hand_is_own, head_fits, part_fits, part_is_zero};

use crate::{Job, Standing};
use sheet::Row;

// Numbers are all 0 exactly if their sum is. One test of the sum, here and below: tests of each number would become vector code, and
// that may be slow.
fn row_is_zero(row: Row) -> bool
    ensures { result ≡ row_is_zero row }
{
    u64::from(row.processor)
        + u64::from(row.memory)
        + u64::from(row.computation)
        + u64::from(row.period)
        + u64::from(row.deadline)
        == 0
}

impl Standing {
    // No `match`: it becomes a jump by a table, which is slower than two tests; the rules do without one too.
    #[tactic(auto, unfolding(crate::specs::Shape::standing_fits))]
    fn fits(self, row: Row, held: bool) -> bool
        ensures { result ≡ standing_fits row «held» self }
    {
        if let Standing::Memory(left) = self {
            return held & (1 <= left) & (left <= row.memory);
        }
        if let Standing::Computation(left) = self {
            return held & (1 <= left) & (left <= row.computation);
        }
        !held
    }
}

impl Job {
    fn absent_with_zeros(self) -> bool
        ensures { result ≡ absent_with_zeros self }
    {
        let numbers = u64::from(self.last) + u64::from(self.worst) + u64::from(self.completed);
        self.standing.is_absent() & (numbers == 0)
    }

    #[tactic(auto, unfolding(crate::specs::Shape::job_is_zero))]
    fn is_zero(self) -> bool
        ensures { result ≡ job_is_zero self }
    {
        !self.ever & self.absent_with_zeros()
    }

    // A branch for each test: joined by `&` they are slower.
    fn is_kept(self, clock: u32) -> bool
        ensures { result ≡ (at_most_clock clock self && ever_or_zero self) }
    {
        if clock < self.last || clock < self.worst || clock < self.completed {
            return false;
        }
        self.ever || self.absent_with_zeros()
    }
}

// A `match` of two arms is as plain as `is_none_or`; a `usize` has no `From` of a `u32`.
pub(crate) fn hand_is_own(hand: Option<u32>, on: u8, p: usize, count: usize, processors: u8) -> bool
    ensures { result ≡ hand_is_own hand on p count processors }
{
    match hand {
        None => true,
        Some(i) => {
            ((i as usize) < count) & (usize::from(on) == p) & (p < usize::from(processors))
        }
    }
}

pub(crate) fn head_fits(processors: u8, count: usize, clock: u32) -> bool
    ensures { result ≡ head_fits processors count clock }
{
    (1 <= processors) & (processors <= 8) & (count <= 32) & (clock <= crate::MOST_CLOCK)
}

// Row i, below n, and what is kept for it: `before` is the processor of the row before it, `hand` that of the row's own.
pub(crate) fn part_fits(
    processors: u8,
    before: u8,
    clock: u32,
    i: u32,
    row: Row,
    hand: Option<u32>,
    job: Job,
) -> bool
    ensures { result ≡ part_fits processors before clock i row hand job }
{
    if sheet::row_fault(processors, before, row).is_err() {
        return false;
    }
    job.is_kept(clock) && job.standing.fits(row, hand == Some(i))
}

// A row past n, and what is kept for it.
#[tactic(auto, unfolding(crate::specs::Parts::part_is_zero))]
pub(crate) fn part_is_zero(row: Row, job: Job) -> bool
    ensures { result ≡ part_is_zero row job }
{
    row_is_zero(row) & job.is_zero()
}
