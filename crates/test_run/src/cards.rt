// `card HEX SPACE TEXT`: the card of the record in hexadecimal (`-` for no bytes). `refusal N SPACE TEXT`: the text of the refusal N.
// Each goes into SPACE lent bytes, at most 200. They are the front of 200 bytes, each a full stop. Prints the number of bytes written,
// or the refusal; whether all bytes past those written (on a refusal all 200) are the same; and the text. The bytes written follow.
use crate::answers::Answer;
use crate::lending::lend;
use refusals::refusal::Refusal;
use std::io;
use test_lines::input::{hex_bytes, number};
use test_lines::output;

// What a call answers that writes a text, and the 200 bytes. It is kept as it is beside that of writes: each is printed in another way. The
// front is cut out by the number that an open call answers.
#[derive(Drop)]
pub struct Written {
    answer: Result<usize, Refusal>,
    bytes: [u8; 200],
}

impl Written {
    // The bytes written, none on a refusal, and those past them.
    fn split(&self) -> (&[u8], &[u8]) {
        let count = self.answer.unwrap_or(0);
        self.bytes.split_at(count.min(200))
    }
}

impl Answer for Written {
    fn print(&self, rt: &impl Print) -> io::Result<()> {
        self.answer.print(rt)?;
        let (_, unwritten) = self.split();
        let same = unwritten.iter().all(|byte| *byte == b'.');
        output::text(rt, if same { b" same" } else { b" changed" })
    }

    fn print_behind(&self, rt: &impl Print) -> io::Result<()> {
        let (written, _) = self.split();
        output::text(rt, written)
    }
}

pub fn card(hex: &[u8], space: &[u8]) -> Written {
    let mut bytes = [0u8; 128];
    let record = hex_bytes(hex, &mut bytes);
    let room = number(space, usize::MAX);
    let (answer, bytes) = lend([b'.'; 200], room, |out| fire_card::calls::card(record, out));
    Written { answer, bytes }
}

pub fn refusal(word: &[u8], space: &[u8]) -> Written {
    let n = number(word, u8::MAX);
    let room = number(space, usize::MAX);
    let (answer, bytes) = lend([b'.'; 200], room, |out| fire_card::calls::refusal(n, out));
    Written { answer, bytes }
}
