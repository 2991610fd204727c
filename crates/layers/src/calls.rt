// The open calls of this crate: they ask nothing of their caller.
ghost use Rattle.std.specs.Prelude.{◌≡◌};
ghost use Rattle.refusals.specs.Numbers.{by_number};
ghost use Rattle.layers.specs.Answers.{ei_sum_answer, ei_answer};

use crate::minutes::{ei_minute_of, least_sum_of};
use limits::check::Accepted;
use panel::Panel;
use refusals::refusal::Refusal;

// The sum of the layer times in thousandths of a minute. The check and the step stay as they are: see `ei`.
#[tactic(auto, using(refusals::proofs::FirstLine::handed_on, refusals::proofs::FirstLine::worked_out), unfolding(crate::specs::Answers::ei_sum_answer, limits::specs::Answers::accepted_answer))]
pub fn ei_sum(p: Panel) -> Result<u32, Refusal>
    ensures { by_number result ≡ ei_sum_answer p }
{
    let accepted = Accepted::of(p)?;
    Ok(least_sum_of(accepted))
}

// EI in whole minutes. A check and a step, as in load's `load_minute` and the other open calls of a panel, are kept as they are: the check
// is one call already, and a function that took the step as a closure would be `Accepted::of(p).map(step)`.
#[tactic(auto, using(refusals::proofs::FirstLine::handed_on, refusals::proofs::FirstLine::worked_out), unfolding(crate::specs::Answers::ei_answer, limits::specs::Answers::accepted_answer))]
pub fn ei(p: Panel) -> Result<u16, Refusal>
    ensures { by_number result ≡ ei_answer p }
{
    let accepted = Accepted::of(p)?;
    Ok(ei_minute_of(accepted).number())
}
