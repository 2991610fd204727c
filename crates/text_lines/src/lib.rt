// Lines of a head and numbers, as document 01's printed card has them, stored in lent bytes, and a text of fixed room to which they are added.
// No function here knows of cards or panels, and none is an open call: what it asks, its `requires` says.
#![tactic(auto)]

pub mod stored;
pub mod text;
