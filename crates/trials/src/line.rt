// One line of output in the making. What no longer fits is left out, so that a line too long shows as one that differs.

use crate::digest::Digest;
use std::io::{Print, Result, Stdout};
use text::Text;

#[derive(Drop)]
pub struct Line<'a> {
    text: Text<'a>,
}

impl<'a> Line<'a> {
    pub fn new(buffer: &'a mut [u8]) -> Line<'a> {
        Line {
            text: Text::new(buffer),
        }
    }

    pub fn put_byte(&mut self, byte: u8) {
        self.text.put_byte(byte);
    }

    // A space and the number's decimal digits.
    pub fn put_number(&mut self, number: u64) {
        self.put_byte(b' ');
        self.text.put_number(number);
    }

    pub fn put_numbers<N: Copy + Into<u64>>(&mut self, numbers: &[N]) {
        for number in numbers {
            self.put_number((*number).into());
        }
    }

    // A space and 16 hexadecimal digits.
    pub fn put_digest(&mut self, digest: Digest) {
        self.put_byte(b' ');
        self.put_hex(digest.0, 16);
    }

    // A space and two hexadecimal digits for each byte.
    pub fn put_bytes(&mut self, bytes: &[u8]) {
        self.put_byte(b' ');
        for byte in bytes {
            self.put_hex(u64::from(*byte), 2);
        }
    }

    fn put_hex(&mut self, number: u64, width: usize) {
        let mut digits = [0; 16];
        let count = io::hex(number, width, &mut digits);
        self.text.put(&digits[..count]);
    }

    pub fn write(&self, output: Stdout) -> Result<()> {
        output.write_all(self.text.written())
    }
}
