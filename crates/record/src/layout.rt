// Where the numbers of a record stand: each place is the one before and the width of what stands there, as in document 01's
// layout. The version decides how long the front is.
ghost use Rattle.std.specs.Prelude.{◌≡◌, ◌≤◌, ◌<◌};
ghost use Rattle.record.specs.Layouts.{front_length, count_place, lamella_place, length_with};

// The front: length (2), version (1), and in version 2 the face (1).
pub(crate) const LENGTH: usize = 0;

pub(crate) const VERSION: usize = LENGTH + 2;

pub(crate) const FACE: usize = VERSION + 1;

const FRONT_1: usize = VERSION + 1;

const FRONT_2: usize = FACE + 1;

// The head: bond (1), rate (1), gap (1), strength (2), moment (4), number of boards (1), failure time (4).
pub(crate) const BOND: usize = 0;

pub(crate) const RATE: usize = BOND + 1;

pub(crate) const GAP: usize = RATE + 1;

pub(crate) const STRENGTH: usize = GAP + 1;

pub(crate) const MOMENT: usize = STRENGTH + 2;

pub(crate) const BOARDS: usize = MOMENT + 4;

pub(crate) const FAILURE_TIME: usize = BOARDS + 1;

pub(crate) const HEAD: usize = FAILURE_TIME + 4;

// A board: type (1), thickness (2), joint coefficient (1).
pub(crate) const BOARD_THICKNESS: usize = 1;

pub(crate) const JOINT: usize = BOARD_THICKNESS + 2;

pub(crate) const BOARD: usize = JOINT + 1;

// The number of lamellae (1).
pub(crate) const COUNT: usize = 1;

// A lamella: direction (1), thickness (2).
pub(crate) const THICKNESS: usize = 1;

pub(crate) const LAMELLA: usize = THICKNESS + 2;

// What follows the front, without boards and lamellae.
const REST: usize = HEAD + COUNT;

// Version 1 with one lamella; version 2 with two boards and nine lamellae.
pub(crate) const SHORTEST: usize = FRONT_1 + REST + LAMELLA;

pub(crate) const LONGEST: usize = FRONT_2 + REST + 2 * BOARD + 9 * LAMELLA;

// The length of the front. The version's number is kept as it is: a panel is plain data, whose raw numbers calls refuse.
pub(crate) fn front(version: u8) -> usize
    ensures { (result ≡ front_length version) × (result ≤ 4) }
{
    if version == 2 { FRONT_2 } else { FRONT_1 }
}

// What places and lengths depend on: the version, whose number is kept as it is: see `front`, and c, the number of boards.
#[derive(Clone, Copy)]
pub(crate) struct Layout {
    pub version: u8,
    pub boards: u8,
}

impl Layout {
    // Where the number of lamellae stands.
    pub(crate) fn count_place(self) -> usize
        ensures { (result ≡ count_place self.version self.boards) × (result < 2047) }
    {
        front(self.version) + HEAD + BOARD * usize::from(self.boards)
    }

    // Where the lamellae begin.
    pub(crate) fn lamella_place(self) -> usize
        ensures { (result ≡ lamella_place self.version self.boards) × (result < 2048) }
    {
        self.count_place() + COUNT
    }

    // The length of a record with n lamellae.
    pub(crate) fn length_with(self, n: usize) -> usize
        requires { n < 256 }
        ensures { result ≡ length_with self.version self.boards n }
    {
        self.lamella_place() + LAMELLA * n
    }
}
