// `carried DEPTH HEX TEXT`: as `section`, of the section carried from depth 0 to the depth, or to the panel's thickness where that is less.
ghost use Rattle.std.specs.Prelude.{◌≡◌, min};
ghost use Rattle.panel.specs.Lamellae.{lamellae, thickness};
ghost use Rattle.section.specs.Tests.{section_at};

use carried::carry::Carried;
use limits::check::Accepted;
use panel::Panel;
use refusals::refusal::Refusal;
use section::test::DesignValues;
use section::{Remaining, Section};

fn carried_to(fire: Accepted, depth: u64) -> Remaining
    ensures { result.section ≡ section_at fire (min depth (thickness (lamellae fire))) }
{
    let p = fire.panel();
    let mut c = Carried::start(p.lamellae());
    while c.depth < depth {
        let Some(next) = c.deeper() else {
            return c.remaining();
        };
        c = next;
    }
    c.remaining()
}

// The steps of the open call `section`, which stay as they are: what is tested is that the carried section and its test are the call's.
// The pair is that call's own, and stays as it is with it.
pub fn carried_answer(p: Panel, depth: u32) -> Result<(Section, bool), Refusal> {
    let fire = Accepted::of(p)?.shown();
    let s = carried_to(fire, u64::from(depth));
    Ok((s.section, DesignValues::of(&fire.panel()).section_passes(s)))
}
