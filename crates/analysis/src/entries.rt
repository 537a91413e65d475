// A row that has its bound, as the three numbers that the sums of later rows need, and a sum over such rows.

ghost use Rattle.std.specs.Prelude.{◌≡◌, ℕ, ◌*◌, ◌≤◌, length};
ghost use Rattle.sheet.specs.Ranges.{most_ticks};

use sheet::Row;

// Within x the row takes (x + lead) / period rounded down, times the weight. A lead of T rounds x down and adds one; a
// lead of R - e + T - 1 rounds x + R - e up. A period of 0 is no row's.
#[derive(Clone, Copy)]
pub struct Entry {
    pub weight: u32,
    pub period: u32,
    pub lead: u32,
    ghost weight_most: { weight ≤ 2 * most_ticks },
    ghost no_row: { period ≡ 0 → weight ≡ 0 },
    ghost lead_most: { lead ≤ 2 * most_ticks },
}

impl Entry {
    ghost use Rattle.analysis.specs.Equations.{limit};
    ghost use Rattle.analysis.specs.Bounds.{asked_with, taken};
    ghost use Rattle.sheet.specs.Ranges.{length_of};
    ghost use Rattle.analysis.specs.Entries.{entry_term, entry_sum, most_term, most_sum, places, Fit, Bounded};

    // No row. It is all zero, so that an array of these is quick to make.
    pub const NONE: Entry = Entry {
        weight: 0,
        period: 0,
        lead: 0,
    };

    // Among the higher rows of its own processor. Only `work` and `Equations` call this and what follows, and show what it asks: the
    // module is the crate's own.
    pub fn higher(row: Row) -> Entry
        requires { Fit row 0 }
        ensures { (x : ℕ) → entry_term x result ≡ asked_with length_of row x }
    {
        Entry {
            weight: row.memory + row.computation,
            period: row.period,
            lead: row.period,
        }
    }

    // With its bound, among the rows of higher-ranked processors.
    pub fn ranked(row: Row, bound: u32) -> Entry
        requires { Bounded row bound }
        ensures { (x : ℕ) → entry_term x result ≡ taken row bound x }
    {
        let length = row.memory + row.computation;
        Entry {
            weight: row.memory,
            period: row.period,
            lead: bound - length + row.period - 1,
        }
    }

    // That x is within the limit is asked of the argument, here and below.
    pub fn term(self, x: u32) -> u64
        requires { x ≤ limit }
        ensures value { result ≡ entry_term x self }
        ensures most { result ≤ most_term }
    {
        // A row's period is at least 1; where the compiler sees that, it leaves out its own test.
        u64::from((x + self.lead) / self.period.max(1)) * u64::from(self.weight)
    }

    pub fn sum(entries: &[Entry], x: u32) -> u64
        requires few { length entries.now ≤ places }
        requires within { x ≤ limit }
        ensures value { result ≡ entry_sum entries.now x }
        ensures most { result ≤ most_sum }
    {
        // A chain of iterators does it too, but takes longer where the rows are few.
        let mut sum = 0;
        for entry in entries {
            sum += entry.term(x);
        }
        sum
    }
}
