// Raw panels as words of the input: panels that need not stand in a record. RAW is a word in hexadecimal that gives every number of a
// `Panel`, whatever it is, and both arrays whole, at fixed places, big-endian, in the order of the struct:
//
// - 0: version, face, bond, rate, gap, of 1 byte each; 5: strength, of 2; 7: moment, of 4; 11: failure time, of 4;
// - 15: the number of boards, of 1: 0 for none, 1 for one, any other for two; 16 and 20: the outer and the inner board, letter of 1,
//   thickness of 2, joint of 1; they have their places where they are not counted, too;
// - 24: count, of 8; 32: nine directions, of 1 each; 41: nine thicknesses, of 2 each.
//
// These are 59 bytes. Zeros at the end may be left out, and a lone `-` is all zeros.
use numbers::bytes::{byte_at, bytes_at};
use panel::{Board, Cladding, Panel};
use test_lines::input::hex_bytes;

// The bytes are kept as they are, an array: one of them is set by its place (`with`).
#[derive(Clone, Copy)]
pub struct Raw {
    bytes: [u8; 59],
}

impl Raw {
    pub fn of(word: &[u8]) -> Raw {
        let mut bytes = [0u8; 59];
        let _spelt = hex_bytes(word, &mut bytes);
        Raw { bytes }
    }

    // With another byte at a place; past the end there is none to set.
    pub fn with(self, at: usize, byte: u8) -> Raw {
        let mut bytes = self.bytes;
        if let Some(place) = bytes.get_mut(at) {
            *place = byte;
        }
        Raw { bytes }
    }

    fn board(self, at: usize) -> Board {
        let [kind, high, low, joint]: [u8; 4] = bytes_at(&self.bytes, at);
        Board {
            kind,
            thickness: u16::from_be_bytes([high, low]),
            joint,
        }
    }

    fn cladding(self) -> Cladding {
        match byte_at(&self.bytes, 15) {
            0 => Cladding::Unclad,
            1 => Cladding::One(self.board(16)),
            _ => Cladding::Two(self.board(16), self.board(20)),
        }
    }

    fn thicknesses(self) -> [u16; 9] {
        let bytes: [u8; 18] = bytes_at(&self.bytes, 41);
        let (pairs, _) = bytes.as_chunks::<2>();
        let mut thicknesses = [0u16; 9];
        for (thickness, pair) in thicknesses.iter_mut().zip(pairs) {
            *thickness = u16::from_be_bytes(*pair);
        }
        thicknesses
    }

    pub fn panel(self) -> Panel {
        let s = &self.bytes;
        Panel {
            version: byte_at(s, 0),
            face: byte_at(s, 1),
            bond: byte_at(s, 2),
            rate: byte_at(s, 3),
            gap: byte_at(s, 4),
            strength: u16::from_be_bytes(bytes_at(s, 5)),
            moment: u32::from_be_bytes(bytes_at(s, 7)),
            failure_time: u32::from_be_bytes(bytes_at(s, 11)),
            cladding: self.cladding(),
            count: usize::from_be_bytes(bytes_at(s, 24)),
            directions: bytes_at(s, 32),
            thicknesses: self.thicknesses(),
        }
    }
}
