// The sum of the layer times, from the exposed side.
ghost use Rattle.std.specs.Prelude.{◌≡◌, List, map, length, ℕ, ◌*◌, ◌≤◌};
ghost use Rattle.panel.specs.Lamellae.{lamellae_of};
ghost use Rattle.basic_times.specs.Rules.{longest_time};
ghost use Rattle.limits.specs.Keeps.{ThicknessesKeep, Keeps};
ghost use Rattle.layers.specs.Layers.{lamella_layer, protected_after, ei_sum};
ghost use Rattle.layers.specs.Bounds.{longest_sum};
ghost use Rattle.layers.specs.Kept.{SameUpTo};

use crate::added::with_lamella;
use crate::kept::{KeptSums, sum_of_boards, with_lamella_at};
use basic_times::Role;
use panel::Panel;

// After lamellae of these thicknesses, all by protection, whatever is kept. None is added to a sum that is enough.
fn protected(s: u32, thicknesses: &[u16], enough: u32, kept: Option<&KeptSums>) -> u32
    requires sum { s ≤ 2 * longest_time }
    requires lamellae { (length thicknesses.now ≤ 8) × ThicknessesKeep thicknesses.now (length thicknesses.now) }
    ensures sum { (gs : List ℕ) → SameUpTo enough result (protected_after s (map lamella_layer (lamellae_of gs thicknesses.now (length thicknesses.now)))) }
    ensures most { result ≤ 10 * longest_time }
{
    let mut sum = s;
    for (at, &thickness) in thicknesses.iter().enumerate() {
        if sum < enough {
            sum = with_lamella_at(kept, at, sum, thickness);
        }
    }
    sum
}

// The sum of a panel's layer times, whatever is kept; where it is enough, one that is enough too. The panel must keep the
// limits of lines 8, 10 and 11. The front of the array is kept as it is: `split_last` would give an `Option` whose `None` never is.
pub(crate) fn ei_sum_of(p: Panel, enough: u32, kept: Option<&KeptSums>) -> u32
    requires { Keeps p }
    ensures sum { SameUpTo enough result (ei_sum p) }
    ensures most { result ≤ longest_sum }
{
    let last = p.count - 1;
    let s = protected(
        sum_of_boards(kept, p.cladding),
        &p.thicknesses[..last],
        enough,
        kept,
    );
    if s < enough {
        with_lamella(Role::Insulation, s, p.thicknesses[last])
    } else {
        s
    }
}
