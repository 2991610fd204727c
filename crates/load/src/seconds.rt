// The failure time's whole seconds: the last depth that passes, found once, and then the last second whose depth is no deeper.
ghost use Rattle.std.specs.Prelude.{◌≡◌};
ghost use Rattle.load.specs.LastPassing.{last_passing};
ghost use Rattle.load.specs.LoadMinute.{load_seconds};

use crate::SECONDS_PER_MINUTE;
use carried::carry::Carried;
use charring::{CharringValues, Time};
use limits::LAST_MINUTE;
use limits::check::Accepted;
use numbers::search::last_keeping;
use section::test::DesignValues;

// The last depth, at most the panel's thickness, to which every depth passes. The section is carried. Where N stays the section does, and is
// not tested again.
fn last_passing(accepted: Accepted) -> u64
    ensures { result ≡ last_passing accepted }
{
    let p = accepted.panel();
    let design = DesignValues::of(&p);
    let mut c = Carried::start(p.lamellae());
    while let Some(next) = c.deeper() {
        if next.section.n != c.section.n {
            if !design.section_passes(next.remaining()) {
                return c.depth;
            }
        }
        c = next;
    }
    c.depth
}

// The failure time's whole seconds of the fire on the first face: the last second whose depth is no deeper than the last to which every depth
// passes. Their whole minutes are the load minute of this fire (`fire_minutes` in proofs/). The cast is kept as it is: `try_from` would add a
// branch that never runs.
pub fn fire_seconds(accepted: Accepted) -> u16
    ensures { result ≡ load_seconds accepted }
{
    let last = last_passing(accepted);
    let fire = CharringValues::of(accepted.panel());
    let beyond = u64::from(SECONDS_PER_MINUTE * LAST_MINUTE) + 1;
    last_keeping(
        beyond,
        |second| u64::from(fire.tenths(Time::second(second))) <= last,
    ) as u16
}
