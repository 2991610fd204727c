// R, the load minute (document 01, "Remaining section"): the failure time's whole minutes, the same in minutes and seconds, and the reserve
// against a wanted minute. The open calls are in `calls`.
#![tactic(auto)]

pub mod calls;
pub mod lasting;
pub mod minutes;
mod reach;
pub mod seconds;

// The seconds of a minute.
const SECONDS_PER_MINUTE: u16 = 60;

// A time in whole minutes and seconds, from 0:00 to 360:00. It stays as it is beside planing's `Cut`: two numbers too, of other things.
#[derive(Clone, Copy, Debug, PartialEq, Eq)]
pub struct MinutesAndSeconds {
    pub minutes: u16,
    pub seconds: u8,
}
