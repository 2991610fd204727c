// Why a record, a panel or a call is refused: a line of the papers' table.
ghost use Rattle.std.specs.Prelude.{◌≡◌};
ghost use Rattle.refusals.specs.Numbers.{line_number};

use std::fmt;

// The lines in the papers' order: what a record or a panel says that does not fit, and 14 and 15, about a call.
#[derive(Clone, Copy, Debug, PartialEq, Eq)]
pub enum Refusal {
    Length,
    Version,
    Face,
    BondOrGap,
    Rate,
    Load,
    BoardCount,
    BoardTypes,
    Boards,
    FailureTime,
    LamellaCount,
    Lamellae,
    Lvl,
    NoneAlong,
    Section,
    Space,
    Minute,
}

// The papers' number of the line.
impl From<Refusal> for u8 {
    ghost from_gives = { λ refusal n. n ≡ line_number refusal };

    fn from(refusal: Refusal) -> u8 {
        match refusal {
            Refusal::Length => 1,
            Refusal::Version => 2,
            Refusal::Face => 16,
            Refusal::BondOrGap => 3,
            Refusal::Rate => 4,
            Refusal::Load => 5,
            Refusal::BoardCount => 6,
            Refusal::BoardTypes => 7,
            Refusal::Boards => 8,
            Refusal::FailureTime => 9,
            Refusal::LamellaCount => 10,
            Refusal::Lamellae => 11,
            Refusal::Lvl => 17,
            Refusal::NoneAlong => 12,
            Refusal::Section => 13,
            Refusal::Space => 14,
            Refusal::Minute => 15,
        }
    }
}

impl fmt::Display for Refusal {
    fn fmt<W: fmt::Write>(&self, f: &mut fmt::Formatter<W>) -> fmt::Result {
        write!(f, "refused {}", u8::from(*self))
    }
}
