// What is said of charring at a time (document 01, "Charring"): the phase, the depth table, and the open calls for a depth or a phase,
// in `calls`.
#![tactic(auto)]

pub mod at_time;
pub mod calls;
pub mod table;

use limits::LAST_MINUTE;

// The entries of a depth table: one for each minute. The cast is kept as it is: no constant can call `usize::from`.
const ENTRIES: usize = LAST_MINUTE as usize + 1;

// The phase of the char. A fast phase carries the char depth where it ends, in hundred-thousandths of mm.
#[derive(Clone, Copy, Debug, PartialEq, Eq)]
pub enum Phase {
    Untouched,
    UnderCladding,
    Fast(u32),
    Settled,
}
