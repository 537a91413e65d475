// What is printed for a sheet: its bounds, or the refusal.
#![tactic(auto)]

ghost use Rattle.sheet.specs.Ranges.{row_in};
ghost use Rattle.text.specs.Putting.{Puts, Adds};
ghost use Rattle.report.specs.Report.{row_line, line_of, accepted_text, report_of};

use sheet::{MOST_ROWS, Row, Set};
use text::{PutLine, Text};

// The rows of a set with their bounds, which stand beside the rows: `analysis::analyse` puts them into a lent buffer of their own.
#[derive(Clone, Copy)]
struct Bounded<'a> {
    set: &'a Set,
    bounds: &'a [u32; MOST_ROWS],
}

fn put_row(text: &mut Text, i: usize, row: Row, bound: u32)
    ensures { Adds (row_line i row bound) text.old text.new }
{
    // Here and below: there is no `u64::from` of a `usize`.
    text.put_field(i as u64, b' ');
    text.put_field(u64::from(row.processor), b' ');
    text.put_field(u64::from(bound), b' ');
    text.put_field(u64::from(row.deadline), b'\n');
}

// Past the rows it is the line of none, so that every number has one.
impl PutLine for Bounded<'_> {
    ghost line_of = { λ bounded i. line_of (row_in bounded.set.now) bounded.bounds.now i };

    fn put_line(&self, text: &mut Text, i: usize) {
        let Bounded { set, bounds } = self;
        let row = set.rows.get(i).copied().unwrap_or_default();
        let bound = bounds.get(i).copied().unwrap_or_default();
        put_row(text, i, row, bound);
    }
}

fn put_accepted(text: &mut Text, set: Set, bounds: &[u32; MOST_ROWS])
    ensures { Adds (accepted_text set bounds.now) text.old text.new }
{
    text.put(b"accepted ");
    text.put_field(set.count as u64, b'\n');
    text.put(b"row processor bound deadline\n");
    text.put_lines(set.count, &Bounded { set: &set, bounds });
}

fn put_report(text: &mut Text, sheet: &[u8])
    ensures { Adds (report_of sheet.now) text.old text.new }
{
    let mut bounds = [0u32; MOST_ROWS];
    match analysis::analyse(sheet, &mut bounds) {
        Ok(()) => put_accepted(text, sheet::read(sheet).set, &bounds),
        Err(refusal) => text.put_refusal(refusal),
    }
}

// The text goes to the front of the lent buffer, and the answer is where it ends.
pub fn report(sheet: &[u8], out: &mut [u8]) -> usize
    ensures { Puts (report_of sheet.now) out.old 0 out.new result }
{
    let mut text = Text::new(out);
    put_report(&mut text, sheet);
    text.end()
}
