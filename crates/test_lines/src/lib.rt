// What the test programs share: the lines and words of their input, what a word spells, and the output, piece by piece.
// The contracts say that every access is in bounds. What is printed is held to the stored output, not proved.
#![tactic(auto)]

pub mod input;
pub mod output;
