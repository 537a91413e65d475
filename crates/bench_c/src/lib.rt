// The calls of the crate bench, exported so that a program in C can time them. A slice goes as a pointer and a length.
#![tactic(auto)]

ghost use Rattle.std.specs.Prelude.{◌≡◌, length};
ghost use Rattle.analysis.specs.Analysis.{analyse_refusal, analysed};
ghost use Rattle.bench.specs.Calls.{with_calls, begin, outcome};
ghost use Rattle.bench.specs.Readings.{readings_outcome};

use bench::{analyses, calls, readings};

#[unsafe(no_mangle)]
pub extern "C" fn bench_analyse(
    sheet: &[u8],
    bounds: &mut [u32],
    number: &mut u8,
    row: &mut usize,
    instance: &mut u32,
)
    ensures bounds_after { bounds.new ≡ analysed sheet.now bounds.old }
    ensures number_after { number.new ≡ (analyse_refusal sheet.now (length bounds.old)).number }
    ensures row_after { row.new ≡ (analyse_refusal sheet.now (length bounds.old)).row }
    ensures instance_after { instance.new ≡ (analyse_refusal sheet.now (length bounds.old)).instance }
{
    analyses::bench_analyse(sheet, bounds, number, row, instance)
}

#[unsafe(no_mangle)]
pub extern "C" fn bench_board(sheet: &[u8], releases: u32, round: u32, calls: u32) -> u32
    ensures { result ≡ outcome (with_calls releases round calls (begin sheet.now)) }
{
    calls::bench_board(sheet, releases, round, calls)
}

#[unsafe(no_mangle)]
pub extern "C" fn bench_read(sheet: &[u8], calls: u32) -> u32
    ensures { result ≡ readings_outcome sheet.now calls }
{
    readings::bench_read(sheet, calls)
}
