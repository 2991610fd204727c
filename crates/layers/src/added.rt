// The sum with one more layer, and of boards.
ghost use Rattle.std.specs.Prelude.{◌≡◌, ◌+◌, ◌*◌, ◌≤◌};
ghost use Rattle.panel.specs.declared.Material.TheVariants.{Wood};
ghost use Rattle.basic_times.specs.declared.Role.TheVariants.{Protection};
ghost use Rattle.basic_times.specs.Rules.{longest_time};
ghost use Rattle.layers.specs.Layers.{board_layer, with_layer};
ghost use Rattle.layers.specs.Kept.{WithLamella, WithBoards};
ghost use Rattle.limits.specs.Keeps.{ThicknessKeeps, BoardKeeps, CladdingKeeps};

use crate::step::layer_time;
use basic_times::Role;
use basic_times::times::time_at;
use panel::boards::material_of;
use panel::{Board, Cladding, Material, WHOLE_JOINT};

// With a board more, by protection. It and `with_lamella` are kept as they are: a lamella has a role and no joint, a board a joint and no role.
#[tactic(auto, unfolding(crate::specs::Layers::with_layer_in, crate::specs::Layers::time_of, crate::specs::Layers::joint_of))]
fn with_board(s: u32, b: Board) -> u32
    requires { (s ≤ longest_time) × BoardKeeps b }
    ensures { (result ≡ with_layer Protection s (board_layer b)) × (result ≤ s + longest_time) }
{
    let t = time_at(Role::Protection, material_of(b.kind), b.thickness);
    s + layer_time(s, t, b.joint)
}

// With a lamella more. Its direction does not matter.
#[tactic(auto, unfolding(crate::specs::Layers::with_layer_in, crate::specs::Layers::time_of, crate::specs::Layers::joint_of))]
pub(crate) fn with_lamella(role: Role, s: u32, thickness: u16) -> u32
    requires { (s ≤ 10 * longest_time) × ThicknessKeeps Wood thickness }
    ensures { WithLamella role s thickness result }
{
    let t = time_at(role, Material::Wood, thickness);
    s + layer_time(s, t, WHOLE_JOINT)
}

#[tactic(auto, unfolding(crate::specs::Layers::protected_after))]
pub(crate) fn boards_sum(c: Cladding) -> u32
    requires { CladdingKeeps c }
    ensures { WithBoards c result }
{
    match c {
        Cladding::Unclad => 0,
        Cladding::One(b) => with_board(0, b),
        Cladding::Two(outer, inner) => with_board(with_board(0, outer), inner),
    }
}
