// A text of at most N bytes: lines are added at its end. What each adds asks for room, which stays as it is: no type says how much is still free.
ghost use Rattle.std.specs.Prelude.{◌≡◌, ℕ, ◌+◌, ◌*◌, ◌≤◌, List, [], ◌++◌, length, take};
ghost use Rattle.text_lines.specs.Text.{text_line, time_line};

use crate::stored::{put_line, put_time};
use std::marker::Model;

// The bytes and how many are used are kept as they are, side by side: a `Vec` or a `String` wants a heap.
#[derive(Drop)]
pub struct Text<const N: usize> {
    bytes: [u8; N],
    length: usize,
}

// Clauses see the bytes added so far.
impl<const N: usize> Model for Text<N> {
    ghost Value = { List ℕ };

    ghost view = { λ t. take t.length t.bytes };

    ghost invariant = { λ t. t.length ≤ N };
}

impl<const N: usize> Text<N> {
    pub fn new() -> Self
        ensures { result ≡ [] }
    {
        Text {
            bytes: [0; N],
            length: 0,
        }
    }

    pub fn as_slice(&self) -> &[u8]
        ensures { result.now ≡ self.now }
    {
        &self.bytes[..self.length]
    }

    // A line: its head, a blank and the digits for each number, and a line feed. The longest line with so many numbers
    // must fit.
    pub fn push_line(&mut self, head: &[u8], numbers: &[u32])
        requires { length self.old + length head.now + 11 * length numbers.now + 1 ≤ N }
        ensures added { self.new ≡ self.old ++ text_line head.now numbers.now }
        ensures most { length self.new ≤ length self.old + length head.now + 11 * length numbers.now + 1 }
    {
        self.length = put_line(&mut self.bytes, self.length, head, numbers);
    }

    // A line with a time: its head, a blank, the minutes, a colon, the seconds in two digits, and a line feed. The longest
    // such line must fit.
    pub fn push_time(&mut self, head: &[u8], minutes: u32, seconds: u8)
        requires { length self.old + length head.now + 15 ≤ N }
        ensures added { self.new ≡ self.old ++ time_line head.now minutes seconds }
        ensures most { length self.new ≤ length self.old + length head.now + 15 }
    {
        self.length = put_time(&mut self.bytes, self.length, head, minutes, seconds);
    }
}
