// The open calls of this crate: they ask nothing of their caller.
ghost use Rattle.std.specs.Prelude.{◌≡◌};
ghost use Rattle.refusals.specs.Numbers.{by_number};
ghost use Rattle.load.specs.Answers.{load_answer, load_time_answer, reserve_answer, reserve_of};

use crate::MinutesAndSeconds;
use crate::minutes::{load_minute_of, load_seconds_of, minutes_in, seconds_over};
use limits::asked::asked;
use limits::check::Accepted;
use limits::minute::Minute;
use panel::Panel;
use refusals::refusal::Refusal;

// The load minute. The check and the step stay as they are: see `ei` (layers).
#[tactic(auto, using(refusals::proofs::FirstLine::handed_on, refusals::proofs::FirstLine::worked_out), unfolding(crate::specs::Answers::load_answer, limits::specs::Answers::accepted_answer))]
pub fn load_minute(p: Panel) -> Result<u16, Refusal>
    ensures { by_number result ≡ load_answer p }
{
    let accepted = Accepted::of(p)?;
    Ok(load_minute_of(accepted).number())
}

// The failure time in whole minutes and seconds.
#[tactic(auto, using(refusals::proofs::FirstLine::handed_on, refusals::proofs::FirstLine::worked_out), unfolding(crate::specs::Answers::load_time_answer, limits::specs::Answers::accepted_answer))]
pub fn load_time(p: Panel) -> Result<MinutesAndSeconds, Refusal>
    ensures { by_number result ≡ load_time_answer p }
{
    let accepted = Accepted::of(p)?;
    let seconds = load_seconds_of(accepted);
    Ok(MinutesAndSeconds {
        minutes: minutes_in(seconds),
        seconds: seconds_over(seconds),
    })
}

fn reserve_of(load: Minute, wanted: Minute) -> i32
    ensures { result ≡ reserve_of wanted load }
{
    i32::from(load.number()) - i32::from(wanted.number())
}

// The reserve against a wanted minute.
pub fn reserve(p: Panel, wanted: u16) -> Result<i32, Refusal>
    ensures { by_number result ≡ reserve_answer p wanted }
{
    let accepted = asked(p, wanted)?;
    Ok(reserve_of(load_minute_of(accepted), Minute::of(wanted)))
}
