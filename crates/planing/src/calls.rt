// The open call of this crate: it asks nothing of its caller.
ghost use Rattle.std.specs.Prelude.{◌≡◌};
ghost use Rattle.refusals.specs.Numbers.{by_number};
ghost use Rattle.planing.specs.Answers.{planing_answer};

use crate::Cut;
use crate::search::least_cut;
use limits::check::Accepted;
use panel::Panel;
use refusals::refusal::Refusal;

// The least cut of one lamella that lowers the REI grade, or that no cut does. The check and the step stay as they are: see `ei` (layers).
#[tactic(auto, using(refusals::proofs::FirstLine::handed_on, refusals::proofs::FirstLine::worked_out), unfolding(crate::specs::Answers::planing_answer, limits::specs::Answers::accepted_answer))]
pub fn planing(p: Panel) -> Result<Option<Cut>, Refusal>
    ensures { by_number result ≡ planing_answer p }
{
    let accepted = Accepted::of(p)?;
    Ok(least_cut(accepted))
}
