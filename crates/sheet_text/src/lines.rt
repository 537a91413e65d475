// A line, and what is left of a text. They stand by themselves: a struct with a ghost field imports all that its file's clauses name.
ghost use Rattle.std.specs.Prelude.{◌+◌, ◌≤◌, length};
ghost use Rattle.sheet_text.specs.Meaning.{most_bytes};

// A line's number, and what it says: what stands before its comment.
#[derive(Clone, Copy)]
pub struct Line<'a> {
    pub number: usize,
    pub content: &'a [u8],
    ghost short: { length content.now ≤ most_bytes + 1 },
}

// What is left of a text, from a line's beginning on, and that line's number. It is no `Iterator`: after the last line it is asked for
// that number.
#[derive(Clone, Copy)]
pub struct Lines<'a> {
    pub left: &'a [u8],
    pub number: usize,
    ghost counted: { number + length left.now ≤ most_bytes + 1 },
}
