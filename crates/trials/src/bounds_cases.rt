// The cases of the bounds.
//   A  a number of places (2 bytes), a sheet: analyses the sheet with that many places lent, of which
//      place i holds 4,000,000,000 + i, and prints refusal and digest of the places.
//   B  the same, and then all the places.
// `as` stands where a number is shown to fit, and where a `usize` is met, which has no `From`.
ghost use Rattle.std.specs.Prelude.{◌≡◌, length};

use crate::digest::Digest;
use crate::line::Line;
use crate::numbers;
use std::array;

// The places lent are the first of these.
fn all_places() -> [u32; 64]
    ensures { 64 ≡ length result }
{
    array::from_fn(|i| 4000000000 + i as u32)
}

// Whoever is handed a function has to ask that it may be called.
pub fn put_bounds<F: Fn(&mut Line, &[u32])>(line: &mut Line, case: &[u8], then: F)
    requires { F.IsAlwaysCallable then }
{
    let Some((count, sheet)) = case.split_at_checked(2) else {
        return;
    };
    let mut places = all_places();
    if let Some(places) = places.get_mut(..numbers::number_in(count) as usize) {
        let answer = analysis::analyse(sheet, places);
        line.put_numbers(&numbers::of_answer(answer));
        line.put_digest(Digest::of(places));
        then(line, places);
    }
}
