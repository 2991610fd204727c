// Char depth and effective depth at a time. Everything is worked out times q, as it is defined, so that nothing is lost.
ghost use Rattle.std.specs.Prelude.{◌≡◌, ◌*◌, ◌≤◌};
ghost use Rattle.refusals.specs.Causes.{last_minute};
ghost use Rattle.charring.specs.Rates.{tenth};
ghost use Rattle.charring.specs.Depths.{char_at, effective_at, micrometres_at, tenths_at, round_up};

use crate::{CharringValues, Time};

// The divisor must be there, and what comes out must fit. The cast is kept as it is: a `try_from` would add an error that never
// comes.
fn rounded_up(n: u64, d: u64) -> u32
    requires le_d { (20000 ≤ d) × (d ≤ 6720000) }
    requires n_bound { n ≤ 2 * d * 400000000000 }
    ensures { result ≡ round_up n (2 * tenth * d) }
{
    let by = 200000000 * d;
    ((n + (by - 1)) / by) as u32
}

impl CharringValues {
    // The char depth in half picometres, times q.
    pub fn char(&self, at: Time) -> u64
        ensures { (result ≡ char_at self.now.panel at.n at.q) × (result ≤ 48000000000000) }
    {
        let early = (1000 * at.n).saturating_sub(at.scaled(self.start));
        let slow = early.min(at.scaled(self.failure - self.start));
        let under = 2 * self.slow * slow;
        (under + self.after(at)).min(2 * at.scaled(self.back))
    }

    // The char depth at a whole minute in micrometres, rounded up. The cast is kept as it is: see `rounded_up`.
    pub fn micrometres(&self, minute: u64) -> u32
        requires { minute ≤ last_minute }
        ensures { result ≡ micrometres_at self.now.panel minute 1 }
    {
        ((self.char(Time::minute(minute)) + 1999999) / 2000000) as u32
    }

    // The effective depth, half picometres times q and `full`: at most 6·10^18.
    fn effective(&self, at: Time) -> u64
        ensures value { result ≡ effective_at self.now.panel at.n at.q }
        ensures most { (result ≤ 2 * at.q * self.now.full * self.now.back) × (result ≤ 6000000000000000000) }
    {
        let char = self.full * self.char(at);
        let time = 1000 * at.n;
        let added = 14000000000 * time.min(at.scaled(self.full));
        (char + added).min(2 * self.full * at.scaled(self.back))
    }

    // The effective depth in tenths of mm, rounded up.
    pub fn tenths(&self, at: Time) -> u32
        ensures { result ≡ tenths_at self.now.panel at.n at.q }
    {
        rounded_up(self.effective(at), at.scaled(self.full))
    }
}
