// The least cut: by tenths of mm, and for each from the fire on. More taken off may raise EI again, so every amount is tried.
ghost use Rattle.std.specs.Prelude.{◌≡◌, ◌≤◌, ◌<◌, MatchOption};
ghost use Rattle.planing.specs.Answers.{first_behind, most_cut, planing_of};

use crate::cuts::Rated;
use crate::{Cut, MOST_CUT};
use layers::kept::KeptSums;
use limits::check::Accepted;

// Behind how many others the nearest lamella to the fire stands off which so many tenths may be taken and lower the grade.
fn first_behind(rated: &Rated<'_>, tenths: u16) -> Option<usize>
    requires { (0 < tenths) × (tenths ≤ most_cut) }
    ensures { MatchOption result (first_behind rated.now.panel tenths ≡ rated.now.panel.count)
        (λ behind. (behind ≡ first_behind rated.now.panel tenths) × (behind < rated.now.panel.count)) }
{
    (0..rated.panel.count).find(|&behind| rated.is_lowering(behind, tenths))
}

// The least cut of one lamella that lowers the REI grade, or that no cut does. The loop is kept as it is: `find_map` would take a closure that
// takes one, and the loop's invariant says what was tried, that no smaller amount serves.
pub fn least_cut(accepted: Accepted) -> Option<Cut>
    ensures { result ≡ planing_of accepted }
{
    let kept = KeptSums::of(accepted);
    let rated = Rated::of(accepted, &kept);
    for tenths in 1..=MOST_CUT {
        if let Some(behind) = first_behind(&rated, tenths) {
            return Some(Cut {
                // The cast is kept as it is: `try_from` would add a branch that never runs.
                place: rated.index_behind(behind) as u8 + 1,
                tenths,
            });
        }
    }
    None
}
