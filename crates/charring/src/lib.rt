// Charring behind cladding and bond lines (document 01, "Charring"): char depth and effective depth at a time. No open
// calls: what a function asks, its `requires` says.
#![tactic(auto)]

ghost use Rattle.std.specs.Prelude.{◌≡◌, ◌+◌, ◌*◌, ◌≤◌};
ghost use Rattle.charring.specs.Rates.{start_of, failure_of, plain_rate, slow_rate, back_face, depth_at_failure, first_end};
ghost use Rattle.charring.specs.Depths.{full_at};
ghost use Rattle.charring.specs.Fits.{CharringFits, TimeFits};

mod depths;
pub mod lines;
mod times;
mod values;
mod walk;

use panel::Panel;

// A tenth of mm, in picometres.
const TENTH: u64 = 100000000;

// 25 mm, in picometres: how far a fast run goes.
const FAST_RUN: u64 = 25000000000;

// n/q minutes: at most 360, in whole parts of which q, at most sixty, make a minute.
#[derive(Clone, Copy)]
pub struct Time {
    pub n: u64,
    q: u64,
    ghost fits: { TimeFits n q },
}

// A panel and what is the same of it at every time: t_ch and t_f, the rates under cladding and after it, the depth at t_f, where the first
// run ends, the back face, and when k0 is 1. Times in thousandths of a minute, lengths in picometres.
#[derive(Clone, Copy)]
pub struct CharringValues {
    pub panel: Panel,
    pub start: u64,
    pub failure: u64,
    pub slow: u64,
    pub plain: u64,
    pub depth: u64,
    pub end: u64,
    pub back: u64,
    pub full: u64,
    pub ghost fits: { CharringFits panel },
    pub ghost start_is: { start ≡ start_of panel },
    pub ghost failure_is: { failure ≡ failure_of panel },
    pub ghost slow_is: { slow ≡ slow_rate panel },
    pub ghost plain_is: { plain ≡ plain_rate panel },
    pub ghost depth_is: { depth ≡ depth_at_failure panel },
    pub ghost end_is: { end ≡ first_end panel },
    pub ghost back_is: { back ≡ back_face panel },
    pub ghost full_is: { full ≡ full_at panel },
    pub ghost slow_most: { slow ≤ 1000000 },
    pub ghost depth_most: { depth ≤ 360000000000 },
    // 25 mm past the depth at t_f
    pub ghost end_most: { end ≤ 385000000000 },
}

// How far the way is gone by a time, n/q minutes: the depth, `from`, and where its run ends, in picometres. And times q: what is left of the
// time, in twice what β alone adds, and what has charred on the way, `gained`; both in half picometres.
#[derive(Clone, Copy)]
pub struct Progress {
    at: Time,
    from: u64,
    pub end: u64,
    pub left: u64,
    gained: u64,
    ghost from_most: { from ≤ 400000000000 },
    ghost end_most: { end ≤ 425000000000 },
    ghost gained_most: { gained + 2 * left ≤ 86400000000000 },
}
