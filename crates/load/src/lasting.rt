// Whether a panel passes through a minute. Its failure time is not worked out, and depths are tested many at once.
ghost use Rattle.std.specs.Prelude.{◌≡◌, ◌≤◌};
ghost use Rattle.refusals.specs.Refusals.{refusal_before_section};
ghost use Rattle.section.specs.Tests.{passes_under, SectionFits};
ghost use Rattle.charring.specs.Fits.{CharringFits};
ghost use Rattle.load.specs.LoadMinute.{every_through, time_test};
ghost use Rattle.load.specs.Lasting.{lasts};

use crate::reach::Reach;
use charring::{CharringValues, Time};
use limits::minute::Minute;
use panel::Panel;
use panel::faces::{shown, turned};
use section::test::DesignValues;

// Every depth from the first through the last, both in, under a moment. The ranges widen and narrow, so that it is kept as it is beside
// `last_keeping`. What is asked of the panel stays as it is: line 13 may refuse it.
pub fn every_depth_passes(p: Panel, moment: u32, first: u64, last: u64) -> bool
    requires fits { SectionFits p }
    requires moment_bound { moment ≤ 1000000 }
    requires order { (first ≤ last) × (last ≤ 4000) }
    ensures { result ≡ every_through (passes_under moment p) first last }
{
    let design = DesignValues::under(moment, &p);
    let Some(mut reach) = Reach::start(p.lamellae(), design, first, last) else {
        return false;
    };
    while reach.reached < reach.last {
        let Some(next) = reach.next() else {
            return false;
        };
        reach = next;
    }
    true
}

// In the fire on the first face. What is asked stays as it is: line 13 may refuse the panel.
fn fire_lasts(p: Panel, minute: Minute) -> bool
    requires { SectionFits p × CharringFits p }
    ensures { result ≡ time_test p minute 1 }
{
    let depth = CharringValues::of(p).tenths(Time::minute(u64::from(minute.number())));
    every_depth_passes(p, p.moment, 0, u64::from(depth))
}

// In every fire. No line above 13 may refuse the panel. It stays as it is beside `Accepted::least_of_fires`: line 13 may
// refuse the panel, and where the first fire fails the second is not looked at. The face is kept as it is, a raw number of the panel.
pub fn lasts(p: Panel, minute: Minute) -> bool
    requires { refusal_before_section p ≡ 0 }
    ensures { result ≡ lasts p minute }
{
    if !fire_lasts(shown(p), minute) {
        return false;
    }
    if p.face < 2 {
        return true;
    }
    fire_lasts(turned(p), minute)
}
