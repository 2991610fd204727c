// EI of an accepted panel.
ghost use Rattle.std.specs.Prelude.{◌≡◌, min};
ghost use Rattle.layers.specs.Layers.{printed_ei, least_sum};

use crate::kept::KeptSums;
use crate::sums::ei_sum_of;
use basic_times::PARTS_PER_MINUTE;
use limits::LAST_MINUTE;
use limits::check::Accepted;
use limits::minute::Minute;

// The sum of the layer times, the lesser of two fires. None is as great as the number that is enough here.
pub(crate) fn least_sum_of(accepted: Accepted) -> u32
    ensures { result ≡ least_sum accepted }
{
    accepted.least_of_fires(|fire| ei_sum_of(fire.panel(), u32::MAX, None))
}

// The same, no further than what is enough.
fn least_sum_up_to(accepted: Accepted, enough: u32, kept: Option<&KeptSums>) -> u32
    ensures { result ≡ min (least_sum accepted) enough }
{
    accepted.least_of_fires(|fire| ei_sum_of(fire.panel(), enough, kept).min(enough))
}

// EI in whole minutes, the lesser of two fires.
pub fn ei_minute_of(accepted: Accepted) -> Minute
    ensures { result ≡ printed_ei accepted }
{
    ei_minute_up_to(accepted, Minute::of(LAST_MINUTE), None)
}

// The same, no further than a minute that is enough, whatever is kept.
pub fn ei_minute_up_to(accepted: Accepted, enough: Minute, kept: Option<&KeptSums>) -> Minute
    ensures { result ≡ min (printed_ei accepted) enough }
{
    let enough = u32::from(enough.number()) * PARTS_PER_MINUTE;
    let minutes = least_sum_up_to(accepted, enough, kept) / PARTS_PER_MINUTE;
    // The cast is kept as it is: `try_from` would add a branch that never runs.
    Minute::of(minutes as u16)
}
