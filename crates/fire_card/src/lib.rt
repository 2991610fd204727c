// The fire card (document 01, the printed card): the text of a record's card, or of its refusal, in lent bytes. The open
// calls are in `calls`.
#![tactic(auto)]

pub mod calls;
mod lines;
pub mod printed;

// No card has more bytes.
pub const CARD_MOST: usize = 249;

// The room that a card is put together in: its version has fewer than ten digits. With its length a text of so much room takes 256 bytes, as many
// as are cleared without a call of C's memset (docs/DECISIONS.md, "The library for C calls memcpy alone").
pub(crate) const TEXT_ROOM: usize = 248;
