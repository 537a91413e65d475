// The analysis as it stands: one call answers all that there is to compare.
ghost use Rattle.std.specs.Prelude.{◌≡◌, length};
ghost use Rattle.analysis.specs.Analysis.{analyse_refusal, analysed};

use crate::answers::carried;

pub fn bench_analyse(
    sheet: &[u8],
    bounds: &mut [u32],
    number: &mut u8,
    row: &mut usize,
    instance: &mut u32,
)
    ensures bounds_after { bounds.new ≡ analysed sheet.now bounds.old }
    ensures number_after { number.new ≡ (analyse_refusal sheet.now (length bounds.old)).number }
    ensures row_after { row.new ≡ (analyse_refusal sheet.now (length bounds.old)).row }
    ensures instance_after { instance.new ≡ (analyse_refusal sheet.now (length bounds.old)).instance }
{
    let refusal = carried(analysis::analyse(sheet, bounds));
    *number = refusal.number;
    *row = refusal.row;
    *instance = refusal.instance;
}
