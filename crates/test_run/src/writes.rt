// `write SPACE HEX TEXT`: writes the record's panel into SPACE lent bytes, at most 64. They are the front of 64 bytes filled with 238.
// Prints the writer's answer, all 64 bytes, and the text. A refused record stands for a blank panel.
use crate::answers::Answer;
use crate::lending::lend;
use panel::Panel;
use refusals::refusal::Refusal;
use std::io;
use test_lines::output;

// What the writer answers, and the 64 bytes.
#[derive(Drop)]
pub struct Written {
    pub answer: Result<usize, Refusal>,
    bytes: [u8; 64],
}

impl Written {
    // Whether all bytes past those written (on a refusal all 64) are unchanged.
    pub fn past_kept(&self) -> bool {
        let count = self.answer.unwrap_or(0);
        self.bytes[count.min(64)..].iter().all(|byte| *byte == 238)
    }
}

impl Answer for Written {
    fn print(&self, rt: &impl Print) -> io::Result<()> {
        match self.answer {
            Ok(count) => print!(rt; "written {count} ")?,
            Err(refusal) => print!(rt; "{refusal} ")?,
        }
        output::hex(rt, &self.bytes)
    }
}

pub fn write(p: Panel, space: usize) -> Written {
    let (answer, bytes) = lend([238; 64], space, |out| record::calls::write(p, out));
    Written { answer, bytes }
}
