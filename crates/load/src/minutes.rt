// The load minute of an accepted panel, and the same in seconds.
ghost use Rattle.std.specs.Prelude.{◌≡◌};
ghost use Rattle.load.specs.LoadMinute.{printed_load, printed_load_seconds, minutes_in, seconds_over};

use crate::SECONDS_PER_MINUTE;
use crate::seconds::fire_seconds;
use limits::check::Accepted;
use limits::minute::Minute;

// The failure time's whole seconds, the lesser of two fires; their whole minutes are the load minute.
pub fn load_seconds_of(accepted: Accepted) -> u16
    ensures seconds { result ≡ printed_load_seconds accepted }
    ensures minutes { minutes_in result ≡ printed_load accepted }
{
    // The cast is kept as it is: `try_from` would add a branch that never runs.
    accepted.least_of_fires(|fire| u32::from(fire_seconds(fire))) as u16
}

// The whole minutes in so many seconds.
pub fn minutes_in(seconds: u16) -> u16
    ensures { result ≡ minutes_in seconds }
{
    seconds / SECONDS_PER_MINUTE
}

// The seconds over these minutes.
pub fn seconds_over(seconds: u16) -> u8
    ensures { result ≡ seconds_over seconds }
{
    // The cast is kept as it is: `try_from` would add a branch that never runs.
    (seconds % SECONDS_PER_MINUTE) as u8
}

// The load minute.
#[tactic(auto, using(crate::proofs::EveryFire::printed_most))]
pub fn load_minute_of(accepted: Accepted) -> Minute
    ensures { result ≡ printed_load accepted }
{
    Minute::of(minutes_in(load_seconds_of(accepted)))
}
