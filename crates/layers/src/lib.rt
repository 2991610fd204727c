// Layer times and EI (document 01, "Layer times"): what each board and lamella gives, behind those before it, and their sum.
// The open calls are in `calls`.
#![tactic(auto)]

mod added;
pub mod calls;
pub mod kept;
pub mod minutes;
mod step;
mod sums;
