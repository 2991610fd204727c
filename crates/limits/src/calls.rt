// The open calls of this crate: they ask nothing of their caller.
ghost use Rattle.std.specs.Prelude.{◌≡◌};
ghost use Rattle.refusals.specs.Numbers.{by_number};
ghost use Rattle.limits.specs.Answers.{panel_check, section_answer};

use crate::check::Accepted;
use panel::Panel;
use refusals::refusal::Refusal;
use section::Section;
use section::sums::section_at;
use section::test::DesignValues;

// The lines of a panel: the first that fits.
#[tactic(auto, using(refusals::proofs::FirstLine::handed_on, refusals::proofs::FirstLine::goes_on), unfolding(crate::specs::Answers::panel_check, crate::specs::Answers::accepted_answer))]
pub fn panel_check(p: Panel) -> Result<(), Refusal>
    ensures { by_number result ≡ panel_check p }
{
    Accepted::of(p)?;
    Ok(())
}

// The section at a depth in tenths of mm, and whether the depth passes, in the fire that is shown. Both are kept as they are, side by side:
// a depth that fails has its section too.
#[tactic(auto, using(refusals::proofs::FirstLine::handed_on, refusals::proofs::FirstLine::goes_on), unfolding(crate::specs::Answers::section_answer, crate::specs::Answers::accepted_answer))]
pub fn section(p: Panel, depth: u32) -> Result<(Section, bool), Refusal>
    ensures { by_number result ≡ section_answer p depth }
{
    let exposed = Accepted::of(p)?.shown().panel();
    let s = section_at(exposed, depth);
    Ok((s.section, DesignValues::of(&exposed).section_passes(s)))
}
