// The panel record of documents 01 and 02: what bytes are taken for, the layout, the reader and the writer, and the lines that refuse a
// record. The open calls are in `calls`.
#![tactic(auto)]

pub mod calls;
mod faults;
mod layout;
mod reader;
mod taken;
mod writer;

// The arrays of a panel's lamellae, as one loop fills them. They are kept as they are: a panel holds its arrays by value, since there is no
// heap; a tuple would lose the names that contracts use, and two `array::from_fn` would differ in the field alone.
#[derive(Clone, Copy)]
pub struct Lamellae {
    pub directions: [u8; 9],
    pub thicknesses: [u16; 9],
}
