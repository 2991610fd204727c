// Same build, a term of document 01: whether two panels are it, and what panels of the same build share. It stands above everything that
// they share. The open call is in `calls`.
#![tactic(auto)]

pub mod calls;
mod same;
