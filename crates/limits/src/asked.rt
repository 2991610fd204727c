// A panel that is asked for a minute: what every call that is given both begins with.
ghost use Rattle.std.specs.Prelude.{◌≡◌};
ghost use Rattle.refusals.specs.Numbers.{by_number};
ghost use Rattle.limits.specs.Asked.{asked_answer};

use crate::check::Accepted;
use crate::minute::Minute;
use panel::Panel;
use refusals::refusal::Refusal;

// The lines of a panel, then line 15 of a minute. The panel and the minute are kept as they are, two parameters: what the open
// calls are asked for.
pub fn asked(p: Panel, minute: u16) -> Result<Accepted, Refusal>
    ensures { by_number result ≡ asked_answer p minute }
{
    let accepted = Accepted::of(p)?;
    Minute::asked(minute)?;
    Ok(accepted)
}
