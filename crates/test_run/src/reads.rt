// `read HEX TEXT`: reads the record in hexadecimal (`-` for no byte). Prints the refusal's number and the text. For an accepted record,
// number 0, it also says whether writing the panel gives back the very bytes.
use crate::answers::Answer;
use panel::Panel;
use refusals::refusal::Refusal;
use std::io;
use test_lines::input::hex_bytes;
use test_lines::output;

// Whether the bytes are given back, or the refusal.
#[derive(Clone, Copy)]
pub struct Reading(Result<bool, Refusal>);

impl Answer for Reading {
    fn print(&self, rt: &impl Print) -> io::Result<()> {
        match self.0 {
            Ok(true) => output::text(rt, b"0 same"),
            Ok(false) => output::text(rt, b"0 differs"),
            Err(refusal) => {
                let number = u8::from(refusal);
                print!(rt; "{number}")
            }
        }
    }
}

fn gives_back(p: Panel, bytes: &[u8]) -> bool {
    let mut space = [0u8; 64];
    let written = record::calls::write(p, &mut space);
    written == Ok(bytes.len()) && space.starts_with(bytes)
}

pub fn read(hex: &[u8]) -> Reading {
    let mut bytes = [0u8; 128];
    let record = hex_bytes(hex, &mut bytes);
    Reading(record::calls::read(record).map(|accepted| gives_back(accepted.panel(), record)))
}
