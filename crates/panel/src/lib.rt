// The panel of document 01: lamellae, boards and load, the face that the fire is on, and what follows from the boards alone, the start of
// charring, and from the product, the charring rate and the factor of the section test. A panel is plain data: what limits it keeps is the
// matter of the crate `limits`. No open calls: what a function asks, its `requires` says.
#![tactic(auto)]

pub mod boards;
pub mod faces;
pub mod lamellae;
pub mod materials;
pub mod products;

// A joint coefficient that takes nothing off, in hundredths.
pub const WHOLE_JOINT: u8 = 100;

// What a panel is made of: cross-laminated timber, or laminated veneer lumber.
#[derive(Clone, Copy, PartialEq, Eq)]
pub enum Product {
    Clt,
    Lvl,
}

// What a layer is made of: boards of gypsum, OSB or particle board, and lamellae of solid wood.
#[derive(Clone, Copy, PartialEq, Eq)]
pub enum Material {
    Gypsum,
    Wood,
    Osb,
    ParticleBoard,
}

// One board. The type is its ASCII letter, the thickness in tenths of mm, the joint coefficient in hundredths. The letter is kept as it is,
// raw, as the numbers of a `Panel` are.
#[derive(Clone, Copy, PartialEq, Eq)]
pub struct Board {
    pub kind: u8,
    pub thickness: u16,
    pub joint: u8,
}

// The boards over the panel, the outer one first.
#[derive(Clone, Copy, PartialEq, Eq)]
pub enum Cladding {
    Unclad,
    One(Board),
    Two(Board, Board),
}

// The version is that of its record. The face is 0 for a fire on the first face, 1 on the last, 2 on each alone. The bond is 0 for CLT whose
// bond holds, 1 for CLT whose bond falls, 2 for LVL. The rate, that of the record, is in hundredths of mm/min, the strength in tenths of
// N/mm², the moment in N·m per metre of width, the failure time in thousandths of a minute. Lamella i, from the first face, has its direction
// (0 across, 1 along) and its thickness (tenths of mm) at place i of the arrays. Places from `count` on are unused. The numbers are kept as they
// are, raw, since calls refuse those out of their limits, and so are the arrays, by value with their count, since there is no heap.
#[derive(Clone, Copy)]
pub struct Panel {
    pub version: u8,
    pub face: u8,
    pub bond: u8,
    pub rate: u8,
    pub gap: u8,
    pub strength: u16,
    pub moment: u32,
    pub failure_time: u32,
    pub cladding: Cladding,
    pub count: usize,
    pub directions: [u8; 9],
    pub thicknesses: [u16; 9],
}
