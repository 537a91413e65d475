// Text put into a lent buffer, piece by piece. What no longer fits is left out. `write!` is no plainer: it answers a
// `Result`, and nothing here can fail.
#![tactic(auto)]

ghost use Rattle.std.specs.Prelude.{◌≡◌, ℕ, List, [], ◌∷◌, ◌++◌, take};
ghost use Rattle.text.specs.Decimal.{decimal};
ghost use Rattle.text.specs.Lines.{lines_to};
ghost use Rattle.text.specs.Putting.{Begins, Adds};
ghost use Rattle.text.specs.Refusing.{refused_line};

const MOST_DIGITS: usize = 20;

// What has a line for every number. It is a trait and no closure: whoever is handed a closure has to ask that it may be called.
pub trait PutLine {
    ghost line_of: { Self → ℕ → List ℕ };

    fn put_line(&self, text: &mut Text, i: usize)
        ensures { Adds (line_of self.now i) text.old text.new };
}

// A lent buffer, and where the text in it so far ends.
#[derive(Drop)]
pub struct Text<'a> {
    buffer: &'a mut [u8],
    end: usize,
}

impl<'a> Text<'a> {
    pub fn new(buffer: &'a mut [u8]) -> Text<'a>
        ensures { Begins buffer.entry 0 result }
    {
        Text::at(buffer, 0)
    }

    // A text that goes on from any place, which may lie past the end of the buffer.
    pub fn at(buffer: &'a mut [u8], end: usize) -> Text<'a>
        ensures { Begins buffer.entry end result }
    {
        Text { buffer, end }
    }

    pub fn end(&self) -> usize
        ensures { result ≡ self.now.end }
    {
        self.end
    }

    // What stands before the end; all of the buffer where the end lies past it.
    pub fn written(&self) -> &[u8]
        ensures there { result.ref_ptr ≡ self.now.buffer.ref_ptr }
        ensures bytes { result.now ≡ take self.now.end self.now.buffer.now }
    {
        &self.buffer[..self.end.min(self.buffer.len())]
    }

    pub fn put_byte(&mut self, byte: u8)
        ensures { Adds (byte ∷ []) self.old self.new }
    {
        if self.end < self.buffer.len() {
            self.buffer[self.end] = byte;
            self.end += 1;
        }
    }

    pub fn put(&mut self, text: &[u8])
        ensures { Adds text.now self.old self.new }
    {
        if self.buffer.len() <= self.end {
            return;
        }
        let count = (self.buffer.len() - self.end).min(text.len());
        let end = self.end + count;
        self.buffer[self.end..end].copy_from_slice(&text[..count]);
        self.end = end;
    }

    pub fn put_number(&mut self, number: u64)
        ensures { Adds (decimal number) self.old self.new }
    {
        let mut digits = [0u8; MOST_DIGITS];
        let count = io::decimal(number, &mut digits);
        self.put(&digits[..count]);
    }

    // A number, and the byte that parts it from what follows.
    pub fn put_field(&mut self, number: u64, mark: u8)
        ensures { Adds (decimal number ++ (mark ∷ [])) self.old self.new }
    {
        self.put_number(number);
        self.put_byte(mark);
    }

    pub fn put_refusal(&mut self, refusal: sheet::Refusal)
        ensures { Adds (refused_line refusal) self.old self.new }
    {
        self.put(b"refused ");
        self.put_field(u64::from(refusal.number), b' ');
        // There is no `u64::from` of a `usize`.
        self.put_field(refusal.row as u64, b' ');
        self.put_field(u64::from(refusal.instance), b'\n');
    }

    // The line of each number below the count, in turn.
    pub fn put_lines<L: PutLine>(&mut self, count: usize, lines: &L)
        ensures { Adds (lines_to (L.line_of lines.now) count) self.old self.new }
    {
        for i in 0..count {
            lines.put_line(self, i);
        }
    }
}
