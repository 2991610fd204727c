// Sums of layer times kept of one panel for others. What is kept is true in itself, whatever it is used for: it is used where what it was
// worked out of is the same, compared, and else the layer is worked out. So nothing is asked of the panels, and none is compared with another.
ghost use Rattle.std.specs.Prelude.{◌≡◌, ◌+◌, ◌*◌, ◌≤◌, ◌<◌, IsTrue};
ghost use Rattle.panel.specs.declared.Material.TheVariants.{Wood};
ghost use Rattle.basic_times.specs.declared.Role.TheVariants.{Protection};
ghost use Rattle.basic_times.specs.Rules.{longest_time};
ghost use Rattle.limits.specs.Keeps.{ThicknessKeeps, CladdingKeeps, Keeps};
ghost use Rattle.layers.specs.Kept.{WithLamella, GivesAfter, WithBoards, GivesBoards};

use crate::added::{boards_sum, with_lamella};
use basic_times::Role;
use limits::check::Accepted;
use panel::{Cladding, Panel};

// What a lamella gave by protection: the sum before it, its thickness in tenths of mm, and the sum with it. Sums are of layer times.
#[derive(Clone, Copy)]
struct Given {
    before: u32,
    thickness: u16,
    after: u32,
    ghost gives: { GivesAfter before thickness after },
}

// No lamella has this thickness.
const NO_LAMELLA: Given = Given {
    before: 0,
    thickness: 0,
    after: 0,
};

impl Given {
    fn of(before: u32, thickness: u16) -> Given
        requires { (before ≤ 10 * longest_time) × ThicknessKeeps Wood thickness }
        ensures { result.after ≤ before + longest_time }
    {
        Given {
            before,
            thickness,
            after: with_lamella(Role::Protection, before, thickness),
        }
    }

    fn is_of(self, before: u32, thickness: u16) -> bool
        ensures { IsTrue result → (self.before ≡ before) × (self.thickness ≡ thickness) }
    {
        self.thickness == thickness && self.before == before
    }
}

// The sum that the boards of a cladding gave.
#[derive(Clone, Copy)]
struct GivenBoards {
    cladding: Cladding,
    sum: u32,
    ghost gives: { GivesBoards cladding sum },
}

// The boards, and each lamella but the last at its index from the fire, both of the panel that is shown and of the one turned. Where a panel
// has one fire the second is not used, and is kept all the same.
#[derive(Clone, Copy)]
pub struct KeptSums {
    boards: GivenBoards,
    shown: [Given; 9],
    turned: [Given; 9],
}

// What a panel's lamellae but the last give in the fire on its first face, behind boards that gave so much.
fn given_in(p: Panel, boards: u32) -> [Given; 9]
    requires { Keeps p × (boards ≤ 2 * longest_time) }
{
    let mut given = [NO_LAMELLA; 9];
    let mut sum = boards;
    for at in 0..p.count - 1 {
        let lamella = Given::of(sum, p.thicknesses[at]);
        given[at] = lamella;
        sum = lamella.after;
    }
    given
}

impl KeptSums {
    // In the fires of a panel; it promises nothing, since what is kept is true in itself.
    pub fn of(accepted: Accepted) -> KeptSums {
        let shown = accepted.shown().panel();
        let boards = boards_sum(shown.cladding);
        KeptSums {
            boards: GivenBoards {
                cladding: shown.cladding,
                sum: boards,
            },
            shown: given_in(shown, boards),
            turned: given_in(accepted.turned().panel(), boards),
        }
    }
}

// The sum of a panel's boards, kept or worked out.
pub(crate) fn sum_of_boards(kept: Option<&KeptSums>, c: Cladding) -> u32
    requires { CladdingKeeps c }
    ensures { WithBoards c result }
{
    if let Some(sums) = kept {
        if sums.boards.cladding == c {
            return sums.boards.sum;
        }
    }
    boards_sum(c)
}

// The sum with the lamella of this index more, by protection, kept or worked out.
pub(crate) fn with_lamella_at(
    kept: Option<&KeptSums>,
    at: usize,
    before: u32,
    thickness: u16,
) -> u32
    requires { (at < 9) × (before ≤ 10 * longest_time) × ThicknessKeeps Wood thickness }
    ensures { WithLamella Protection before thickness result }
{
    if let Some(sums) = kept {
        let shown = sums.shown[at];
        if shown.is_of(before, thickness) {
            return shown.after;
        }
        let turned = sums.turned[at];
        if turned.is_of(before, thickness) {
            return turned.after;
        }
    }
    with_lamella(Role::Protection, before, thickness)
}
