// The section of an accepted panel carried from depth to depth (document 02, 4/14), in place of being worked out at each. No open
// calls: what a function asks, its `requires` says.
#![tactic(auto)]

pub mod carry;
