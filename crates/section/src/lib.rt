// The remaining section of a panel at a depth (document 01, "Remaining section"): the counted parts, N, P, Q, lo and hi of
// them, and whether the depth passes, or all depths from one to another. It works on panels that keep the limits; the crate `limits` checks
// them. No open calls: what a function asks, its `requires` says.
#![tactic(auto)]

ghost use Rattle.section.specs.Tests.{SectionBounds};
ghost use Rattle.section.specs.NothingCut.{NothingCut};

pub mod sums;
pub mod test;

// N, P and Q of the counted parts (tenths of mm and their powers), and their outermost ends.
// All are 0 where nothing is counted, which is kept as it is: the definition and stored outputs have it so.
#[derive(Clone, Copy)]
pub struct Section {
    pub n: u64,
    pub p: u64,
    pub q: u64,
    pub lo: u64,
    pub hi: u64,
}

// The section that remains of a panel of at most 400.0 mm: its sums keep their bounds, and no difference of its test is cut off at 0.
#[derive(Clone, Copy)]
pub struct Remaining {
    pub section: Section,
    pub ghost bounds: { SectionBounds section },
    pub ghost uncut: { NothingCut section },
}
