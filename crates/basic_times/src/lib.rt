// Basic protection and insulation times of gypsum, solid wood, OSB and particle board (documents 01, "Layer times", and 02): constant
// tables with one entry for each tenth of mm allowed, each proved to be the largest number that keeps to its rule. The open call is in `calls`.
#![tactic(auto)]

pub mod calls;
mod gypsum_insulation;
mod gypsum_protection;
mod osb_insulation;
mod osb_protection;
mod particle_board_insulation;
mod particle_board_protection;
pub mod times;
mod wood_insulation;
mod wood_protection;

// Basic and layer times are kept in thousandths of a minute.
pub const PARTS_PER_MINUTE: u32 = 1_000;

// What a layer is counted for: all layers but the last protect, the last insulates.
#[derive(Clone, Copy)]
pub enum Role {
    Protection,
    Insulation,
}
