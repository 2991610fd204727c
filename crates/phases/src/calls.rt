// The open calls of this crate: they ask nothing of their caller. Depths and phases are those of the fire that is shown.
ghost use Rattle.std.specs.Prelude.{◌≡◌, ◌≤◌, ℕ};
ghost use Rattle.panel.specs.Faces.{shown};
ghost use Rattle.refusals.specs.Numbers.{by_number};
ghost use Rattle.refusals.specs.Lines.{unless_refused};
ghost use Rattle.refusals.specs.Causes.{last_minute};
ghost use Rattle.limits.specs.Asked.{minute_refusal};
ghost use Rattle.charring.specs.declared.CharringValues.{CharringValues};
ghost use Rattle.phases.specs.Answers.{GivesOnly, phase_answer, char_answer, effective_answer, table_answer, table_after};

use crate::at_time::phase_at;
use crate::table::fill;
use crate::{ENTRIES, Phase};
use charring::{CharringValues, Time};
use limits::asked::asked;
use limits::check::Accepted;
use panel::Panel;
use refusals::refusal::Refusal;
use refusals::table::check_space;

// The fire that is shown.
fn shown_fire(accepted: Accepted) -> CharringValues
    ensures { result.panel ≡ shown accepted }
{
    CharringValues::of(accepted.shown().panel())
}

// What is worked out of the fire that is shown at a whole minute; both are kept as they are: see `asked` (limits). Of every fire it
// must be worked out up to the last minute.
fn at_minute<T, F: FnOnce(CharringValues, u64) -> T>(
    p: Panel,
    minute: u16,
    of: F,
) -> Result<T, Refusal>
    requires { (fire : CharringValues) (at : ℕ) → at ≤ last_minute → F.pre of fire at }
    ensures { (value : T) → GivesOnly (F.post of) (shown p) minute value → by_number result ≡ unless_refused (minute_refusal p minute) value }
{
    let accepted = asked(p, minute)?;
    Ok(of(shown_fire(accepted), u64::from(minute)))
}

// The phase at a whole minute; both are kept as they are: see `asked`.
pub fn phase(p: Panel, minute: u16) -> Result<Phase, Refusal>
    ensures { by_number result ≡ phase_answer p minute }
{
    at_minute(p, minute, |fire, at| phase_at(&fire, Time::minute(at)))
}

// The char depth at a whole minute, in micrometres, rounded up; both are kept as they are: see `asked`.
pub fn char_depth(p: Panel, minute: u16) -> Result<u32, Refusal>
    ensures { by_number result ≡ char_answer p minute }
{
    at_minute(p, minute, |fire, at| fire.micrometres(at))
}

// The effective depth at a whole minute, in tenths of mm, rounded up; both are kept as they are: see `asked`.
pub fn effective_depth(p: Panel, minute: u16) -> Result<u32, Refusal>
    ensures { by_number result ≡ effective_answer p minute }
{
    at_minute(p, minute, |fire, at| fire.tenths(Time::minute(at)))
}

// The char depths of minutes 0 to 360 in micrometres, rounded up, into the lent space.
pub fn depth_table(p: Panel, out: &mut [u32]) -> Result<(), Refusal>
    ensures value { by_number result ≡ table_answer p out.old }
    ensures out_after { out.new ≡ table_after p out.old }
{
    let accepted = Accepted::of(p)?;
    check_space(ENTRIES, out.len())?;
    fill(&shown_fire(accepted), out);
    Ok(())
}
