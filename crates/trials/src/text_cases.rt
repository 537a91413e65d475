// The cases of sheets as text.
//   T  a buffer's length (2 bytes), a text: composes the text in a buffer whose byte i is i modulo 251, and prints number,
//      row, line, column and length of the answer, digest of the buffer, and the bytes of the line for a refusal.
//   L  a buffer's length (2 bytes), a sheet: lists the sheet in such a buffer, and prints where the text ends, digest of the
//      buffer, and the bytes of the text.
// `as` stands where a number is shown to fit, and where a `usize` is met, which has no `From`.
use crate::digest::Digest;
use crate::line::Line;
use crate::numbers;
use sheet_text::{Answer, Refused};

// Number, row, line, column and length of an answer; what does not apply is 0.
fn numbers_of(composed: Result<usize, Refused>) -> [u64; 5] {
    match composed {
        Ok(length) => [0, 0, 0, 0, length as u64],
        Err(refused) => {
            let answer = Answer::from(refused);
            [
                u64::from(answer.number),
                answer.row as u64,
                answer.line as u64,
                answer.column as u64,
                answer.length as u64,
            ]
        }
    }
}

#[tactic(auto, unfolding(text::specs::Putting::end_after))]
fn put_words(line: &mut Line, refused: Refused) {
    let mut words = io::buffer();
    let stop = sheet_text::put_answer(&mut words, 0, Answer::from(refused));
    line.put_bytes(&words[..stop]);
}

pub fn put_composed(line: &mut Line, text: &[u8], buffer: &mut [u8]) {
    let composed = sheet_text::compose(text, buffer);
    line.put_numbers(&numbers_of(composed));
    line.put_digest(Digest::of(buffer));
    match composed {
        Ok(_) => line.put_bytes(&[]),
        Err(refused) => put_words(line, refused),
    }
}

#[tactic(auto, unfolding(text::specs::Putting::end_after))]
pub fn put_listed(line: &mut Line, sheet: &[u8], buffer: &mut [u8]) {
    let stop = sheet_text::list(sheet, buffer);
    line.put_number(stop as u64);
    line.put_digest(Digest::of(buffer));
    line.put_bytes(&buffer[..stop]);
}

// Whoever is handed a function has to ask that it may be called.
pub fn put_text<F: Fn(&mut Line, &[u8], &mut [u8])>(line: &mut Line, case: &[u8], put: F)
    requires { F.IsAlwaysCallable put }
{
    let Some((room, input)) = case.split_at_checked(2) else {
        return;
    };
    let mut buffer = io::buffer();
    if let Some(buffer) = buffer.get_mut(..numbers::number_in(room) as usize) {
        numbers::fill(buffer);
        put(line, input, buffer);
    }
}
