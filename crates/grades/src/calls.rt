// The open calls of this crate: they ask nothing of their caller.
ghost use Rattle.std.specs.Prelude.{◌≡◌};
ghost use Rattle.refusals.specs.Numbers.{by_number};
ghost use Rattle.grades.specs.Answers.{grade_answer, rei_answer};

use crate::Grade;
use limits::minute::Minute;
use refusals::refusal::Refusal;

// The grade of a bare minute.
#[tactic(auto, using(refusals::proofs::FirstLine::handed_on, refusals::proofs::FirstLine::worked_out))]
pub fn grade_of(minute: u16) -> Result<Grade, Refusal>
    ensures { by_number result ≡ grade_answer minute }
{
    let minute = Minute::asked(minute)?;
    Ok(Grade::of(minute))
}

// The grade of two bare minutes, for load and for layers.
pub fn rei_of(r: u16, ei: u16) -> Result<Grade, Refusal>
    ensures { by_number result ≡ rei_answer r ei }
{
    let r = Minute::asked(r)?;
    let ei = Minute::asked(ei)?;
    Ok(Grade::of_lower(r, ei))
}
