// Where a record or a panel is refused: the lines of the papers' table by name and number, their causes and their order. What a panel
// that none of them refuses keeps is the matter of the crate `limits`. No open calls: what a function asks, its `requires` says.
#![tactic(auto)]

pub mod causes;
pub mod refusal;
pub mod table;

// What a record's bytes say beside its panel: which of lines 1 and 6 fit, and whether line 10 fits by the record's length. The three flags
// are kept as they are: any of them may hold beside the others, so that they are no kinds of one fault.
#[derive(Clone, Copy)]
pub struct ByteFaults {
    pub length: bool,
    pub board_count: bool,
    pub lamella_count: bool,
}

// A panel alone has no bytes.
pub const NO_BYTES: ByteFaults = ByteFaults {
    length: false,
    board_count: false,
    lamella_count: false,
};
