// Records as words of the input.
use panel::{Cladding, Panel};
use test_lines::input::hex_bytes;

// What stands for a refused record.
const BLANK: Panel = Panel {
    version: 0,
    face: 0,
    bond: 0,
    rate: 0,
    gap: 0,
    strength: 0,
    moment: 0,
    failure_time: 0,
    cladding: Cladding::Unclad,
    count: 0,
    directions: [0; 9],
    thicknesses: [0; 9],
};

// The panel of the record that a hexadecimal word spells, of at most 128 bytes; a blank one where the record is refused.
pub fn panel_of(word: &[u8]) -> Panel {
    let mut bytes = [0u8; 128];
    match record::calls::read(hex_bytes(word, &mut bytes)) {
        Ok(accepted) => accepted.panel(),
        Err(_) => BLANK,
    }
}
