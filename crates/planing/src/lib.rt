// How much may be planed off one lamella before the REI grade falls (document 02, 7/14). The open call is in `calls`.
#![tactic(auto)]

pub mod calls;
mod cuts;
pub mod search;

// Tenths of mm that a lamella keeps.
pub(crate) const LEAST_KEPT: u16 = 100;

// No allowed cut takes off more.
pub(crate) const MOST_CUT: u16 = 500;

// A cut of one lamella: the lamella's place in the record, from 1, and the tenths of mm taken off it. It stays as it is beside load's
// `MinutesAndSeconds`: two numbers too, of other things.
#[derive(Clone, Copy, Debug, PartialEq, Eq)]
pub struct Cut {
    pub place: u8,
    pub tenths: u16,
}
