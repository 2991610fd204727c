// A time of which a depth or a phase is asked, and what is worked out times q of it.
ghost use Rattle.std.specs.Prelude.{◌≡◌, ◌*◌, ◌≤◌};
ghost use Rattle.refusals.specs.Causes.{last_minute};
ghost use Rattle.charring.specs.Fits.{TimeFits};

use crate::Time;

impl Time {
    // n/q minutes. At most 360 minutes, in parts of which at most sixty make one.
    pub fn of(n: u64, q: u64) -> Time
        requires { TimeFits n q }
        ensures { (result.n ≡ n) × (result.q ≡ q) }
    {
        Time { n, q }
    }

    // A whole minute. It and `second` are kept as they are: each says in one line what a call site means. The bare
    // minute stays as it is, here and in `CharringValues::micrometres`: a `Minute` would ask more of callers, which count minutes.
    pub fn minute(minute: u64) -> Time
        requires { minute ≤ last_minute }
        ensures { (result.n ≡ minute) × (result.q ≡ 1) }
    {
        Time { n: minute, q: 1 }
    }

    // A whole second. Kept as it is: see `minute`.
    pub fn second(second: u64) -> Time
        requires { second ≤ 60 * last_minute }
        ensures { (result.n ≡ second) × (result.q ≡ 60) }
    {
        Time { n: second, q: 60 }
    }

    // A time or a length times q.
    pub fn scaled(self, x: u64) -> u64
        requires { x ≤ 400000000000 }
        ensures { (result ≡ self.q * x) × (result ≤ 60 * x) }
    {
        self.q * x
    }
}
