// The digest of the trials: many numbers in one, by shifts and sums.

use crate::numbers;
use sheet::Row;

// A digest of no numbers yet is 0.
#[derive(Clone, Copy)]
pub struct Digest(pub u64);

impl Digest {
    pub fn of<N: Copy + Into<u64>>(numbers: &[N]) -> Digest {
        let mut digest = Digest(0);
        digest.take_all(numbers);
        digest
    }

    pub fn take(&mut self, number: u64) {
        let shifted = (self.0 << 6).wrapping_add(self.0 >> 2);
        let moved = shifted.wrapping_add(0x9E3779B97F4A7C15);
        self.0 ^= moved.wrapping_add(number);
    }

    pub fn take_all<N: Copy + Into<u64>>(&mut self, numbers: &[N]) {
        for number in numbers {
            self.take((*number).into());
        }
    }

    pub fn take_rows(&mut self, rows: &[Row]) {
        for row in rows {
            self.take_all(&numbers::of_row(*row));
        }
    }
}
