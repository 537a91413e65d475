// Sheets as text: composed from lines of decimal numbers, and listed as such lines.
#![tactic(auto)]

ghost use Rattle.std.specs.Prelude.{◌≡◌, ◌+◌, ◌≤◌, length, drop, IfErr};
ghost use Rattle.sheet.specs.Ranges.{row_in};
ghost use Rattle.text.specs.Putting.{Puts, Adds};
ghost use Rattle.sheet_text.specs.Faults.{number_of, numbered, fault_at};
ghost use Rattle.sheet_text.specs.Words.{is_blank, is_mark, bytes_before, has_word, number_said, field_said, number_limit};
ghost use Rattle.sheet_text.specs.Meaning.{numbers_said, first_line_said, row_said, rows_meant, meaning_of};
ghost use Rattle.sheet_text.specs.Parts.{said_number, said_numbers, said_first, said_row, said_meaning, SaysNext, Cuts, lines_left, Finds};
ghost use Rattle.sheet_text.specs.Composing.{refused_answer, said_answer, compose_answer, RefusedFor, composed, reason, answer_line};
ghost use Rattle.sheet_text.specs.Listing.{row_text, row_text_of, listing, listed};

use sheet::{HEADER_BYTES, MOST_ROWS, RECORD_BYTES, Refusal, Row, Set};
use text::{PutLine, Text};

mod faults;
mod lines;

pub use faults::{Fault, Wrong};
use lines::{Line, Lines};

const MOST_BYTES: usize = 65535;

// One more than any number that fits.
const TOO_LARGE: u64 = 4294967296;

// What parts a text: lines, comments, words and what lies between words.
// It is an enum and no closure: the definitions in specs/Words go by it, and a closure's contract would have to name each.
#[derive(Clone, Copy)]
enum Mark {
    Newline,
    Hash,
    Blank,
    Visible,
}

// A word that is a number: where it begins and ends on its line, and its value.
#[derive(Clone, Copy)]
struct Word {
    place: usize,
    stop: usize,
    value: u32,
}

// Why a text is refused: for a fault of its own, or by the writer of sheets.
#[derive(Clone, Copy, Debug, PartialEq, Eq)]
pub enum Refused {
    Text(Fault),
    Sheet(Refusal),
}

impl From<Fault> for Refused {
    ghost use Rattle.sheet_text.specs.declared.Refused.TheVariants.{Text};

    ghost from_gives = { λ fault refused. refused ≡ Text fault };

    fn from(fault: Fault) -> Refused {
        Refused::Text(fault)
    }
}

impl From<Refusal> for Refused {
    ghost use Rattle.sheet_text.specs.declared.Refused.TheVariants.{Sheet};

    ghost from_gives = { λ refusal refused. refused ≡ Sheet refusal };

    fn from(refusal: Refusal) -> Refused {
        Refused::Sheet(refusal)
    }
}

// The number of the refusal with its row or its line and column, and the length of the sheet; what does not apply is 0. It is what is
// printed, and `put_answer` prints any numbers.
#[derive(Clone, Copy, Debug, PartialEq, Eq)]
pub struct Answer {
    pub number: u8,
    pub row: usize,
    pub line: usize,
    pub column: usize,
    pub length: usize,
}

impl From<Refused> for Answer {
    ghost from_gives = { λ refused answer. answer ≡ refused_answer refused };

    fn from(refused: Refused) -> Answer {
        match refused {
            Refused::Text(fault) => Answer {
                number: u8::from(fault.wrong),
                row: 0,
                line: fault.line,
                column: fault.column,
                length: 0,
            },
            Refused::Sheet(refusal) => Answer {
                number: refusal.number,
                row: refusal.row,
                line: 0,
                column: 0,
                length: 0,
            },
        }
    }
}

fn is_blank(byte: u8) -> bool
    ensures { result ≡ is_blank byte }
{
    matches!(byte, b' ' | b'\t' | b'\r')
}

fn is_mark(mark: Mark, byte: u8) -> bool
    ensures { result ≡ is_mark mark byte }
{
    match mark {
        Mark::Newline => byte == b'\n',
        Mark::Hash => byte == b'#',
        Mark::Blank => is_blank(byte),
        Mark::Visible => !is_blank(byte),
    }
}

// How many bytes stand before the first mark of that kind.
fn length_before(mark: Mark, text: &[u8]) -> usize
    ensures value { result ≡ length (bytes_before mark text.now) }
    ensures within { result ≤ length text.now }
{
    text.iter()
        .position(|&byte| is_mark(mark, byte))
        .unwrap_or(text.len())
}

fn number_in(word: &[u8], most: u32) -> Result<u32, Wrong>
    ensures { said_number result ≡ number_said most word.now }
{
    let mut value: u64 = 0;
    for &byte in word {
        if !byte.is_ascii_digit() {
            return Err(Wrong::Number);
        }
        value = (value * 10 + u64::from(byte - b'0')).min(TOO_LARGE);
    }
    if u64::from(most) < value {
        return Err(Wrong::Large);
    }
    // Here and below `as` narrows what is shown to fit.
    Ok(value as u32)
}

fn has_word(line: &[u8]) -> bool
    ensures { result ≡ has_word line.now }
{
    length_before(Mark::Visible, line) < line.len()
}

// N and a processor, which stand first, are bytes; every other number has four bytes.
fn number_limit(k: usize) -> u32
    ensures { result ≡ number_limit k }
{
    if k == 0 { u32::from(u8::MAX) } else { u32::MAX }
}

impl<'a> Line<'a> {
    // That a place is on the line is asked of the argument, here and below.
    fn fault(&self, wrong: Wrong, place: usize) -> Fault
        requires { place ≤ length self.now.content.now }
        ensures { numbered result ≡ fault_at (number_of wrong) self.now.number (place + 1) }
    {
        Fault {
            wrong,
            line: self.number,
            column: place + 1,
        }
    }

    fn next_field(&self, place: usize, most: u32) -> Result<Word, Fault>
        requires { place ≤ length self.now.content.now }
        ensures { SaysNext self.now.number place (field_said most (drop place self.now.content.now)) result }
    {
        let start = place + length_before(Mark::Visible, &self.content[place..]);
        if self.content.len() <= start {
            return Err(self.fault(Wrong::Few, place));
        }
        let stop = start + length_before(Mark::Blank, &self.content[start..]);
        // No `map_err`: what its closure makes, a proof has to read back out of two clauses.
        match number_in(&self.content[start..stop], most) {
            Ok(value) => Ok(Word {
                place: start,
                stop,
                value,
            }),
            Err(wrong) => Err(self.fault(wrong, start)),
        }
    }

    // So many numbers from a place on, and nothing after them.
    fn numbers_from<const COUNT: usize>(&self, place: usize) -> Result<[u32; COUNT], Fault>
        requires { place ≤ length self.now.content.now }
        ensures { said_numbers COUNT result ≡ numbers_said COUNT self.now.number (place + 1) (drop place self.now.content.now) }
    {
        let mut values = [0; COUNT];
        let mut at = place;
        for (k, value) in values.iter_mut().enumerate() {
            let word = self.next_field(at, number_limit(k))?;
            *value = word.value;
            at = word.stop;
        }
        let next = at + length_before(Mark::Visible, &self.content[at..]);
        if next < self.content.len() {
            return Err(self.fault(Wrong::Many, next));
        }
        Ok(values)
    }

    // N, on the first line.
    fn processors(&self) -> Result<u8, Fault>
        ensures { said_first result ≡ first_line_said self.now.number self.now.content.now }
    {
        let start = length_before(Mark::Visible, self.content);
        let stop = start + length_before(Mark::Blank, &self.content[start..]);
        if &self.content[start..stop] != b"processors".as_slice() {
            return Err(self.fault(Wrong::First, start));
        }
        let [processors] = self.numbers_from::<1>(stop)?;
        Ok(processors as u8)
    }

    // Row k of a set.
    fn row(&self, k: usize) -> Result<Row, Fault>
        ensures { said_row result ≡ row_said k self.now.number self.now.content.now }
    {
        if MOST_ROWS <= k {
            return Err(self.fault(Wrong::Rows, length_before(Mark::Visible, self.content)));
        }
        let [processor, memory, computation, period, deadline] = self.numbers_from::<5>(0)?;
        Ok(Row {
            processor: processor as u8,
            memory,
            computation,
            period,
            deadline,
        })
    }
}

impl<'a> Lines<'a> {
    fn cut_line(&mut self) -> Option<Line<'a>>
        ensures { Cuts self.old result self.new }
    {
        let text = self.left;
        if text.is_empty() {
            return None;
        }
        let end = length_before(Mark::Newline, text);
        let stop = length_before(Mark::Hash, &text[..end]);
        let number = self.number;
        let after = (end + 1).min(text.len());
        self.left = &text[after..];
        self.number = number + 1;
        Some(Line {
            number,
            content: &text[..stop],
        })
    }

    // The next line with words. Where there is none, the number is that of the line after the last. How many lines are passed over
    // nothing counts, so the loop goes by what is left; so it does in `rows`.
    fn next_line(&mut self) -> Option<Line<'a>>
        ensures { Finds self.old result self.new }
    {
        while let Some(line) = self.cut_line() {
            if has_word(line.content) {
                return Some(line);
            }
        }
        None
    }

    // The rows that the lines say.
    fn rows(&mut self, processors: u8) -> Result<Set, Fault>
        ensures { said_meaning result ≡ rows_meant processors (lines_left self.old) }
    {
        let mut rows = [sheet::no_row(); MOST_ROWS];
        let mut count = 0;
        while let Some(line) = self.next_line() {
            rows[count] = line.row(count)?;
            count += 1;
        }
        Ok(Set {
            processors,
            count,
            rows,
        })
    }
}

fn meaning_of(text: &[u8]) -> Result<Set, Fault>
    ensures { said_meaning result ≡ meaning_of text.now }
{
    if MOST_BYTES < text.len() {
        return Err(Fault {
            wrong: Wrong::Long,
            line: 1,
            column: 1,
        });
    }
    let mut lines = Lines {
        left: text,
        number: 1,
    };
    let Some(first) = lines.next_line() else {
        return Err(Fault {
            wrong: Wrong::First,
            line: lines.number,
            column: 1,
        });
    };
    lines.rows(first.processors()?)
}

// The sheet that a text says goes to the front of the lent buffer, and the answer is its length.
pub fn compose(text: &[u8], out: &mut [u8]) -> Result<usize, Refused>
    ensures value { said_answer result ≡ compose_answer text.now (length out.old) }
    ensures why { IfErr result (RefusedFor (meaning_of text.now) (length out.old)) }
    ensures out_after { out.new ≡ composed text.now out.old }
{
    let set = meaning_of(text)?;
    sheet::write(set, out)?;
    Ok(HEADER_BYTES + RECORD_BYTES * set.count)
}

fn put_reason(text: &mut Text, number: u8)
    ensures { Adds (reason number) text.old text.new }
{
    if let Ok(wrong) = Wrong::try_from(number) {
        text.put(wrong.words());
    }
}

// The line that is printed for a refused text.
fn put_refused(text: &mut Text, answer: Answer)
    ensures { Adds (answer_line answer) text.old text.new }
{
    if answer.number < u8::from(Wrong::Long) {
        text.put_refusal(sheet::refuse(answer.number, answer.row));
        return;
    }
    text.put(b"refused line ");
    // There is no `u64::from` of a `usize`.
    text.put_number(answer.line as u64);
    text.put(b" column ");
    text.put_number(answer.column as u64);
    text.put(b": ");
    put_reason(text, answer.number);
    text.put_byte(b'\n');
}

// It takes any end, which may lie past the buffer, and any numbers.
pub fn put_answer(out: &mut [u8], end: usize, answer: Answer) -> usize
    ensures { Puts (answer_line answer) out.old end out.new result }
{
    let mut text = Text::at(out, end);
    put_refused(&mut text, answer);
    text.end()
}

fn put_row(text: &mut Text, row: Row)
    ensures { Adds (row_text row) text.old text.new }
{
    text.put_field(u64::from(row.processor), b' ');
    text.put_field(u64::from(row.memory), b' ');
    text.put_field(u64::from(row.computation), b' ');
    text.put_field(u64::from(row.period), b' ');
    text.put_field(u64::from(row.deadline), b'\n');
}

// The rows of a set.
#[derive(Clone, Copy)]
struct Rows<'a> {
    set: &'a Set,
}

// Past the rows it is the line of none, so that every number has one.
impl PutLine for Rows<'_> {
    ghost line_of = { λ rows i. row_text_of (row_in rows.set.now) i };

    fn put_line(&self, text: &mut Text, i: usize) {
        let set = self.set;
        put_row(text, set.rows.get(i).copied().unwrap_or_default());
    }
}

fn put_set(text: &mut Text, set: Set)
    ensures { Adds (listing set) text.old text.new }
{
    text.put(b"processors ");
    text.put_field(u64::from(set.processors), b'\n');
    text.put(b"# processor memory computation period deadline\n");
    text.put_lines(set.count, &Rows { set: &set });
}

fn put_listed(text: &mut Text, sheet: &[u8])
    ensures { Adds (listed sheet.now) text.old text.new }
{
    let reading = sheet::read(sheet);
    match reading.refusal {
        Ok(()) => put_set(text, reading.set),
        Err(refusal) => text.put_refusal(refusal),
    }
}

// The text goes to the front of the lent buffer, and the answer is where it ends.
pub fn list(sheet: &[u8], out: &mut [u8]) -> usize
    ensures { Puts (listed sheet.now) out.old 0 out.new result }
{
    let mut text = Text::new(out);
    put_listed(&mut text, sheet);
    text.end()
}
