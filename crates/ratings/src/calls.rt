// The open calls of this crate: they ask nothing of their caller.
ghost use Rattle.std.specs.Prelude.{◌≡◌};
ghost use Rattle.refusals.specs.Numbers.{by_number};
ghost use Rattle.ratings.specs.Answers.{load_grade, ei_grade, rei_grade, graded};

use crate::Ratings;
use grades::Grade;
use layers::minutes::ei_minute_of;
use limits::check::Accepted;
use load::minutes::load_minute_of;
use panel::Panel;
use refusals::refusal::Refusal;

// The grade of the load minute. The check and the step stay as they are: see `ei` (layers).
#[tactic(auto, using(refusals::proofs::FirstLine::handed_on, refusals::proofs::FirstLine::worked_out), unfolding(crate::specs::Answers::graded, limits::specs::Answers::accepted_answer))]
pub fn load_grade(p: Panel) -> Result<Grade, Refusal>
    ensures { by_number result ≡ graded load_grade p }
{
    let accepted = Accepted::of(p)?;
    Ok(Grade::of(load_minute_of(accepted)))
}

// The grade of EI. The check and the step stay as they are: see `ei` (layers).
#[tactic(auto, using(refusals::proofs::FirstLine::handed_on, refusals::proofs::FirstLine::worked_out), unfolding(crate::specs::Answers::graded, limits::specs::Answers::accepted_answer))]
pub fn ei_grade(p: Panel) -> Result<Grade, Refusal>
    ensures { by_number result ≡ graded ei_grade p }
{
    let accepted = Accepted::of(p)?;
    Ok(Grade::of(ei_minute_of(accepted)))
}

// The REI grade, of the lower of R and EI. The check and the step stay as they are: see `ei` (layers).
#[tactic(auto, using(refusals::proofs::FirstLine::handed_on, refusals::proofs::FirstLine::worked_out), unfolding(crate::specs::Answers::graded, limits::specs::Answers::accepted_answer))]
pub fn rei_grade(p: Panel) -> Result<Grade, Refusal>
    ensures { by_number result ≡ graded rei_grade p }
{
    let accepted = Accepted::of(p)?;
    Ok(Ratings::of(accepted).rei_grade())
}
