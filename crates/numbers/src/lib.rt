// What every other crate counts with: big-endian numbers in bytes, a search for the last number that keeps a test, and laws about lists.
// No function here knows of panels, and none is an open call: what it asks, its `requires` says.
#![tactic(auto)]

pub mod bytes;
pub mod search;
