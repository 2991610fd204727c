// A panel that no line of the table refuses, and a minute that a call may be asked for, as types: what such a panel keeps, what its fires
// give, and the open calls that need nothing more: those in `calls`, `asked`, `check::Accepted::of`, by which every later call checks its
// panel, and `minute::Minute::asked`.
#![tactic(auto)]

pub mod asked;
pub mod calls;
pub mod check;
pub mod minute;

// The last minute that a call may be asked for, and that a card gives.
pub const LAST_MINUTE: u16 = 360;
