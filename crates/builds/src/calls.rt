// The open call of this crate: it asks nothing of its caller.
ghost use Rattle.std.specs.Prelude.{◌≡◌};
ghost use Rattle.refusals.specs.Numbers.{by_number};
ghost use Rattle.builds.specs.Answers.{build_answer};

use crate::same::is_same_build;
use limits::check::Accepted;
use panel::Panel;
use refusals::refusal::Refusal;

// Whether two panels are the same build.
#[tactic(auto, using(refusals::proofs::FirstLine::handed_on, refusals::proofs::FirstLine::goes_on), unfolding(crate::specs::Answers::compared, limits::specs::Answers::accepted_answer))]
pub fn same_build(a: Panel, b: Panel) -> Result<bool, Refusal>
    ensures { by_number result ≡ build_answer a b }
{
    let first = Accepted::of(a)?;
    let second = Accepted::of(b)?;
    Ok(is_same_build(first, second))
}
