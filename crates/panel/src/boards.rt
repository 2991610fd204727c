// What follows from the boards alone: their types, and t_ch, the start of charring.
ghost use Rattle.std.specs.Prelude.{◌≡◌, ◌-◌, ◌*◌, ◌<◌};
ghost use Rattle.numbers.specs.Choice.{pick};
ghost use Rattle.panel.specs.Boards.{known, wood_based, material_of, is_f, type_f, gap_loss, inner_gain, char_through, charring_start};

use crate::{Board, Cladding, Material};

pub fn is_wood_based(b: Board) -> bool
    ensures { result ≡ wood_based b }
{
    matches!(b.kind, b'O' | b'P')
}

pub fn is_known(b: Board) -> bool
    ensures { result ≡ known b }
{
    matches!(b.kind, b'A' | b'F' | b'H') || is_wood_based(b)
}

// What boards of a type are made of. The type, here, above and in `is_f`, and the gap below are numbers that are kept as they are: a panel is plain
// data, whose raw numbers calls refuse.
#[tactic(auto, unfolding(crate::specs::Boards::material_of))]
pub fn material_of(kind: u8) -> Material
    ensures { result ≡ material_of kind }
{
    match kind {
        b'O' => Material::Osb,
        b'P' => Material::ParticleBoard,
        _ => Material::Gypsum,
    }
}

// The letter is kept as it is: see `material_of`.
pub fn is_f(b: Board) -> bool
    ensures { result ≡ is_f b }
{
    b.kind == b'F'
}

pub fn type_f(c: Cladding) -> bool
    ensures { result ≡ type_f c }
{
    match c {
        Cladding::Unclad => false,
        Cladding::One(outer) | Cladding::Two(outer, _) => is_f(outer),
    }
}

// The gap's number is kept as it is: see `material_of`.
fn gap_loss(gap: u8) -> u32
    ensures { result ≡ gap_loss gap }
{
    if gap == 1 { 23000 } else { 14000 }
}

fn outer_gain(b: Board) -> u32
    ensures { (result ≡ 280 * b.thickness) × (result < 18350080) }
{
    280 * u32::from(b.thickness)
}

fn inner_gain(b: Board) -> u32
    ensures { (result ≡ inner_gain b * b.thickness) × (result < 18350080) }
{
    let h = u32::from(b.thickness);
    if is_f(b) { 224 * h } else { 140 * h }
}

// The time in which a board chars through at 0.90 mm/min.
fn char_through(b: Board) -> u32
    ensures { result ≡ char_through b }
{
    1000 * u32::from(b.thickness) / 9
}

fn start_behind(b: Board, loss: u32) -> u32
    ensures { result ≡ pick (wood_based b) (char_through b) (280 * b.thickness - loss) }
{
    if is_wood_based(b) {
        char_through(b)
    } else {
        outer_gain(b).saturating_sub(loss)
    }
}

// t_ch in thousandths of a minute. The gap's number is kept as it is: see `material_of`.
pub fn charring_start(gap: u8, c: Cladding) -> u32
    ensures { result ≡ charring_start gap c }
{
    let loss = gap_loss(gap);
    match c {
        Cladding::Unclad => 0,
        Cladding::One(b) => start_behind(b, loss),
        Cladding::Two(outer, inner) => {
            (outer_gain(outer) + inner_gain(inner)).saturating_sub(loss)
        }
    }
}
