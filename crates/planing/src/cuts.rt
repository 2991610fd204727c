// A cut of one lamella, and whether it lowers the REI grade. The lamella must be one of the panel's own.
ghost use Rattle.std.specs.Prelude.{◌≡◌, suc, ◌+◌, ◌≤◌, ◌<◌, get_or};
ghost use Rattle.panel.specs.Lamellae.{SameUsed};
ghost use Rattle.refusals.specs.Refusals.{panel_refusal, refusal_before_section};
ghost use Rattle.grades.specs.Grades.{grade_of};
ghost use Rattle.ratings.specs.Answers.{rei_grade};
ghost use Rattle.planing.specs.Cuts.{cut_panel, lowered};
ghost use Rattle.planing.specs.Answers.{place_on, cut_behind, lowering, most_cut};

use crate::LEAST_KEPT;
use grades::Grade;
use layers::kept::KeptSums;
use layers::minutes::ei_minute_up_to;
use limits::check::Accepted;
use limits::minute::Minute;
use load::lasting::lasts;
use panel::Panel;
use ratings::Ratings;

// An accepted panel, its REI grade, and the sums of its layer times kept for its cuts, lent. It holds the panel, since the check lends no part of a
// struct with a field that has a model.
#[derive(Clone, Copy)]
pub(crate) struct Rated<'a> {
    pub(crate) panel: Panel,
    grade: Grade,
    kept: &'a KeptSums,
    ghost accepted: { panel_refusal panel ≡ 0 },
    ghost nine: { panel.count ≤ 9 },
    ghost by_rei: { grade ≡ rei_grade panel },
}

// The cut panel; its unused places are the panel's. The panel and what is asked of `at` stay as they are.
fn cut_panel(p: Panel, at: usize, tenths: u16) -> Panel
    requires within { (at < p.count) × (p.count ≤ 9) }
    requires tenths_bound { tenths ≤ get_or p.thicknesses at 0 }
    ensures { SameUsed result (cut_panel p (record { place = suc at; tenths = tenths })) }
{
    let mut cut = p;
    cut.thicknesses[at] -= tenths;
    cut
}

// Whether a panel has less than a grade: it is enough that it does not pass through its minutes, or that EI, worked out no further, is
// below them, whatever is kept.
fn is_lowered(minutes: Minute, q: Panel, kept: &KeptSums) -> bool
    requires minutes_of_grade { (grade_of minutes).minutes ≡ minutes }
    requires q_value { refusal_before_section q ≡ 0 }
    ensures { result ≡ lowered minutes q }
{
    let least = minutes.number();
    if !lasts(q, minutes) {
        return true;
    }
    ei_minute_up_to(Accepted::known(q), minutes, Some(kept)).number() < least
}

impl<'a> Rated<'a> {
    pub(crate) fn of(accepted: Accepted, kept: &'a KeptSums) -> Rated<'a>
        ensures { result.panel ≡ accepted }
    {
        Rated {
            panel: accepted.panel(),
            grade: Ratings::of(accepted).rei_grade(),
            kept,
        }
    }

    // The index of the lamella behind so many others as seen from the fire: its place less 1. The face is kept as it is, a raw number of the
    // panel; so is what is asked of `behind`, here and in `is_lowering`: where the panel has such a lamella is said by its count alone.
    pub(crate) fn index_behind(&self, behind: usize) -> usize
        requires { behind < self.now.panel.count }
        ensures place { result + 1 ≡ place_on self.now.panel.face self.now.panel.count behind }
        ensures within { (result < self.now.panel.count) × (result < 9) }
    {
        if self.panel.face == 1 {
            self.panel.count - 1 - behind
        } else {
            behind
        }
    }

    // Whether so many tenths may be taken off the lamella behind so many others as seen from the fire, and lower the grade. What is asked of
    // `behind` stays as it is.
    pub(crate) fn is_lowering(&self, behind: usize, tenths: u16) -> bool
        requires behind_lt_count { behind < self.now.panel.count }
        requires tenths_nonzero { (0 < tenths) × (tenths ≤ most_cut) }
        ensures { result ≡ lowering self.now.panel (cut_behind self.now.panel tenths behind) }
    {
        let at = self.index_behind(behind);
        if self.panel.thicknesses[at] < LEAST_KEPT + tenths {
            return false;
        }
        is_lowered(
            Minute::of(self.grade.minutes),
            cut_panel(self.panel, at, tenths),
            self.kept,
        )
    }
}
