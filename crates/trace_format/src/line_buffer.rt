//! A line of a trace, which is written from its end to its front.
ghost use Rattle.std.specs.Prelude.{◌≡◌, ◌+◌, ◌≤◌, ◌++◌, [], length, decimal};

use itoa::write_digits;
use std::marker::Model;

// The text of a line, from `start` to the end of the bytes; no line has more than 76 bytes. The digits of a number are
// found from the last one to the first, so here each is written where it stays. In contracts it is the text.
#[derive(Drop)]
pub struct LineBuffer {
    bytes: [u8; 96],
    start: usize,
}

impl Model for LineBuffer {
    ghost use Rattle.std.specs.Prelude.{List, ℕ, drop, ◌≤◌};

    ghost Value = { List ℕ };

    ghost view = { λ a. drop a.start a.bytes };

    ghost invariant = { λ a. a.start ≤ 96 };
}

impl LineBuffer {
    // The empty text.
    pub fn new() -> LineBuffer
        ensures { result ≡ [] }
    {
        LineBuffer {
            bytes: [0; 96],
            start: 96,
        }
    }

    // Makes the text empty.
    #[inline(always)]
    pub fn clear(&mut self)
        ensures { self.new ≡ [] }
    {
        self.start = 96;
    }

    // Puts the bytes before the text.
    #[inline(always)]
    pub fn put(&mut self, bytes: &[u8])
        requires { length bytes.now + length self.old ≤ 96 }
        ensures { self.new ≡ bytes.now ++ self.old }
    {
        let start = self.start - bytes.len();
        self.bytes[start..self.start].copy_from_slice(bytes);
        self.start = start;
    }

    // Puts the number before the text, as decimal digits.
    #[inline(always)]
    pub fn put_number(&mut self, number: u32)
        requires { 10 + length self.old ≤ 96 }
        ensures text { self.new ≡ decimal number ++ self.old }
        ensures short { length self.new ≤ 10 + length self.old }
    {
        self.start = write_digits(u64::from(number), &mut self.bytes, self.start);
    }

    // The text.
    #[inline(always)]
    pub fn text(&self) -> &[u8]
        ensures { result.now ≡ self.now }
    {
        &self.bytes[self.start..]
    }
}
