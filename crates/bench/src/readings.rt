// Many readings of one sheet. The number that comes out is a digest of each reading's refusal, processors and count, and of all
// rows of the last. The rows are gone through only there: they are copied first, and that copy is not to be timed.
ghost use Rattle.std.specs.Prelude.{◌≡◌};
ghost use Rattle.sheet.specs.Ranges.{most_rows};
ghost use Rattle.bench.specs.Readings.{mix_refusal, mix_counts, mix_reading, mix_row, mix_rows, readings_outcome};

use crate::answers::carried;
use crate::digest::{low, mixed};
use sheet::{Reading, Refusal, Row, Set};

#[tactic(auto, unfolding(crate::specs::Readings::mix_refusal))]
// Each of these carries out one definition of the specs, so they are not one.
fn refusal_mixed(digest: u32, refusal: Refusal) -> u32
    ensures { result ≡ mix_refusal digest refusal }
{
    let numbered = mixed(digest, u32::from(refusal.number));
    let placed = mixed(numbered, low(refusal.row));
    mixed(placed, refusal.instance)
}

#[tactic(auto, unfolding(crate::specs::Readings::mix_counts))]
fn counts_mixed(digest: u32, set: Set) -> u32
    ensures { result ≡ mix_counts digest set }
{
    let ranked = mixed(digest, u32::from(set.processors));
    mixed(ranked, low(set.count))
}

#[tactic(auto, unfolding(crate::specs::Readings::mix_reading))]
fn reading_mixed(digest: u32, reading: Reading) -> u32
    ensures { result ≡ mix_reading digest reading }
{
    let answered = refusal_mixed(digest, carried(reading.refusal));
    counts_mixed(answered, reading.set)
}

#[tactic(auto, unfolding(crate::specs::Readings::mix_row))]
fn row_mixed(digest: u32, row: Row) -> u32
    ensures { result ≡ mix_row digest row }
{
    let placed = mixed(digest, u32::from(row.processor));
    let loaded = mixed(placed, row.memory);
    let computed = mixed(loaded, row.computation);
    let repeated = mixed(computed, row.period);
    mixed(repeated, row.deadline)
}

#[tactic(auto, unfolding(crate::specs::Readings::mix_rows))]
fn rows_mixed(digest: u32, set: Set) -> u32
    ensures { result ≡ mix_rows digest set most_rows }
{
    let mut sum = digest;
    for row in set.rows {
        sum = row_mixed(sum, row);
    }
    sum
}

#[tactic(auto, unfolding(crate::specs::Readings::readings, crate::specs::Readings::readings_outcome))]
pub fn bench_read(sheet: &[u8], calls: u32) -> u32
    ensures { result ≡ readings_outcome sheet.now calls }
{
    let mut reading = sheet::read(sheet);
    let mut digest = 0;
    for _ in 0..calls {
        reading = sheet::read(sheet);
        digest = reading_mixed(digest, reading);
    }
    rows_mixed(digest, reading.set)
}
