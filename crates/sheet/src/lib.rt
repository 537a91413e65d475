// The sheet: read from bytes, one row shown, written to bytes.
#![tactic(auto)]

ghost use Rattle.std.specs.Prelude.{◌≡◌, ◌+◌, ◌<◌, ◌≤◌, length};
ghost use Rattle.std.proofs.lemmas.List.Edits.{sets};
ghost use Rattle.sheet.specs.Refusals.{number_of, fault_number, refused, answered};
ghost use Rattle.sheet.specs.Layout.{word_at, stated_length};
ghost use Rattle.sheet.specs.Ranges.{count_fault, row_fault, set_refusal, zero_row, zero_set};
ghost use Rattle.sheet.specs.Reading.{header_fault, read_refusal, read_sheet, row_of_part};
ghost use Rattle.sheet.specs.Showing.{Shown};
ghost use Rattle.sheet.specs.Writing.{word_bytes, record_bytes, write_refusal, written};

mod reasons;

pub use reasons::Reason;

const VERSION_READ: u8 = 1;

pub const HEADER_BYTES: usize = 5;

pub const RECORD_BYTES: usize = 18;

const PART_BYTES: usize = 17;

const MOST_PROCESSORS: u8 = 8;

pub const MOST_ROWS: usize = 32;

const MOST_TICKS: u32 = 1000000;

#[derive(Clone, Copy, Debug, Default, PartialEq, Eq)]
pub struct Row {
    pub processor: u8,
    pub memory: u32,
    pub computation: u32,
    pub period: u32,
    pub deadline: u32,
}

// The rows stand in an array with their number beside it: there is no heap, and `write` takes any number and any rows past it.
#[derive(Clone, Copy)]
pub struct Set {
    pub processors: u8,
    pub count: usize,
    pub rows: [Row; 32],
}

// What a refusal carries. `number` stays a number: `Text::put_refusal` and `board::start_reading` take any, and an enum would ask
// more of their callers.
#[derive(Clone, Copy, Debug, PartialEq, Eq)]
pub struct Refusal {
    pub number: u8,
    pub row: usize,
    pub instance: u32,
}

impl Refusal {
    // A refusal for a reason, with its row; its instance is 0.
    pub fn new(reason: Reason, row: usize) -> Refusal
        ensures { result ≡ refused (number_of reason) row }
    {
        refuse(u8::from(reason), row)
    }
}

// What a test found at a row, as an answer.
pub fn at_row(fault: Result<(), Reason>, row: usize) -> Result<(), Refusal>
    ensures { result ≡ answered (refused (fault_number fault) row) }
{
    fault.map_err(|reason| Refusal::new(reason, row))
}

// A refused read hands back the all-zero set beside the refusal, so this is a struct and no Result.
#[derive(Clone, Copy)]
pub struct Reading {
    pub refusal: Result<(), Refusal>,
    pub set: Set,
}

// A refusal by its number, with its row; its instance is 0. It takes any number: `sheet_text::put_answer` prints any.
pub fn refuse(number: u8, row: usize) -> Refusal
    ensures { result ≡ refused number row }
{
    Refusal {
        number,
        row,
        instance: 0,
    }
}

// Public, as `no_set` is: other crates build answers with them.
pub fn no_row() -> Row
    ensures { result ≡ zero_row }
{
    Row::default()
}

pub fn no_set() -> Set
    ensures { result ≡ zero_set }
{
    Set {
        processors: 0,
        count: 0,
        rows: [no_row(); MOST_ROWS],
    }
}

fn word(s: &[u8], i: usize) -> u32
    requires { i + 4 ≤ length s.now }
    ensures { result ≡ word_at s.now i }
{
    u32::from_be_bytes([s[i], s[i + 1], s[i + 2], s[i + 3]])
}

// The row that a part of a sheet says, wherever in the sheet the part begins.
pub fn row_of(part: &[u8]) -> Row
    ensures { result ≡ row_of_part part.now }
{
    if part.len() != PART_BYTES {
        return no_row();
    }
    Row {
        processor: part[0],
        memory: word(part, 1),
        computation: word(part, 5),
        period: word(part, 9),
        deadline: word(part, 13),
    }
}

// What is wrong with a row, after a row on the processor `before`. Reading, writing and the board's shape ask it with numbers of
// their own, which no struct holds together.
pub fn row_fault(processors: u8, before: u8, row: Row) -> Result<(), Reason>
    ensures { fault_number result ≡ row_fault processors before row }
{
    if processors <= row.processor {
        return Err(Reason::Processor);
    }
    if row.processor < before {
        return Err(Reason::Processor);
    }
    if row.period == 0 {
        return Err(Reason::Period);
    }
    if MOST_TICKS < row.period {
        return Err(Reason::Period);
    }
    if row.deadline == 0 {
        return Err(Reason::Deadline);
    }
    if row.period < row.deadline {
        return Err(Reason::Deadline);
    }
    if MOST_TICKS < row.memory {
        return Err(Reason::Phases);
    }
    if MOST_TICKS < row.computation {
        return Err(Reason::Phases);
    }
    if row.memory + row.computation == 0 {
        return Err(Reason::Phases);
    }
    Ok(())
}

fn count_fault(processors: u8, count: usize) -> Result<(), Reason>
    ensures { fault_number result ≡ count_fault processors count }
{
    if processors == 0 {
        return Err(Reason::Count);
    }
    if MOST_PROCESSORS < processors {
        return Err(Reason::Count);
    }
    if MOST_ROWS < count {
        return Err(Reason::Count);
    }
    Ok(())
}

fn stated_length(s: &[u8]) -> usize
    requires { 5 ≤ length s.now }
    ensures { result ≡ stated_length s.now }
{
    usize::from(u16::from_be_bytes([s[1], s[2]]))
}

fn header_fault(s: &[u8]) -> Result<(), Reason>
    ensures { fault_number result ≡ header_fault s.now }
{
    if s.len() < HEADER_BYTES {
        return Err(Reason::Cut);
    }
    if s[0] != VERSION_READ {
        return Err(Reason::Version);
    }
    let stated = stated_length(s);
    if stated != s.len() {
        return Err(Reason::Length);
    }
    let count = usize::from(s[4]);
    if stated != HEADER_BYTES + RECORD_BYTES * count {
        return Err(Reason::Length);
    }
    count_fault(s[3], count)
}

// Whether a sheet reads: the first refusal, 1 to 9. Each record stands where the layout says, and its part begins in the middle.
fn check(sheet: &[u8]) -> Result<(), Refusal>
    ensures { result ≡ answered (read_refusal sheet.now) }
{
    at_row(header_fault(sheet), 0)?;
    let processors = sheet[3];
    let count = usize::from(sheet[4]);
    let mut before: u8 = 0;
    for i in 0..count {
        let at = HEADER_BYTES + RECORD_BYTES * i;
        if sheet[at] != 17 {
            return Err(Refusal::new(Reason::Record, i));
        }
        let row = row_of(&sheet[at + 1..at + RECORD_BYTES]);
        at_row(row_fault(processors, before, row), i)?;
        before = row.processor;
    }
    Ok(())
}

// A refused sheet gives a set without rows, so that one loop and one way out serve both. Each row is stored in the set that is handed
// back: rows gathered in an array of their own would be copied once more. A record stands where the layout says, here and in `write`.
pub fn read(sheet: &[u8]) -> Reading
    ensures { result ≡ read_sheet sheet.now }
{
    let refusal = check(sheet);
    let mut set = no_set();
    if refusal.is_ok() {
        set.processors = sheet[3];
        set.count = usize::from(sheet[4]);
    }
    for i in 0..set.count {
        let at = HEADER_BYTES + RECORD_BYTES * i;
        set.rows[i] = row_of(&sheet[at + 1..at + RECORD_BYTES]);
    }
    Reading { refusal, set }
}

pub fn show(sheet: &[u8], row: usize) -> &[u8]
    ensures { Shown sheet.entry row result }
{
    if check(sheet).is_err() {
        return &sheet[..0];
    }
    let count = usize::from(sheet[4]);
    if count <= row {
        return &sheet[..0];
    }
    let at = HEADER_BYTES + 1 + RECORD_BYTES * row;
    &sheet[at..at + PART_BYTES]
}

// Its loop is like the one of `check`, which has a length byte to test and no set: to make one for it would be a copy.
fn set_refusal(set: &Set) -> Result<(), Refusal>
    ensures { result ≡ answered (set_refusal set.now) }
{
    at_row(count_fault(set.processors, set.count), 0)?;
    let mut before: u8 = 0;
    for (i, row) in set.rows[..set.count].iter().enumerate() {
        at_row(row_fault(set.processors, before, *row), i)?;
        before = row.processor;
    }
    Ok(())
}

fn put_word(out: &mut [u8], at: usize, x: u32)
    requires { at + 4 ≤ length out.old }
    ensures { out.new ≡ sets out.old at (word_bytes x) }
{
    out[at..at + 4].copy_from_slice(&x.to_be_bytes());
}

fn put_record(out: &mut [u8], row: Row)
    requires { length out.old ≡ 18 }
    ensures { out.new ≡ record_bytes row }
{
    out[0] = 17;
    out[1] = row.processor;
    put_word(out, 2, row.memory);
    put_word(out, 6, row.computation);
    put_word(out, 10, row.period);
    put_word(out, 14, row.deadline);
}

pub fn write(set: Set, out: &mut [u8]) -> Result<(), Refusal>
    ensures value { result ≡ answered (write_refusal set (length out.old)) }
    ensures out_after { out.new ≡ written set out.old }
{
    set_refusal(&set)?;
    let count = set.count;
    let size = HEADER_BYTES + RECORD_BYTES * count;
    if out.len() < size {
        return Err(Refusal::new(Reason::Room, 0));
    }
    // Size and count are cast: both are shown to fit.
    let [high, low] = (size as u16).to_be_bytes();
    out[0] = VERSION_READ;
    out[1] = high;
    out[2] = low;
    out[3] = set.processors;
    out[4] = count as u8;
    for i in 0..count {
        let at = HEADER_BYTES + RECORD_BYTES * i;
        put_record(&mut out[at..at + RECORD_BYTES], set.rows[i]);
    }
    Ok(())
}
