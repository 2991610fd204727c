// The way through the panel from t_f on, from bond line to bond line.
ghost use Rattle.std.specs.Prelude.{◌≡◌, ◌+◌, ◌-◌, ◌*◌, ◌≤◌, min, max};
ghost use Rattle.charring.specs.Rates.{failure_of, plain_rate, depth_at_failure, first_end};
ghost use Rattle.charring.specs.Depths.{after_at};
ghost use Rattle.charring.specs.Walk.{Crossed, Passed};

use crate::lines::{Line, Lines};
use crate::{CharringValues, Progress, Time};

impl Progress {
    // The parts of the stretch from here to a line, times q.
    pub fn fast_part(self, line: Line) -> u64
        ensures { (result ≡ self.at.q * (min self.end line.at - self.from)) × (result ≤ 24000000000000) }
    {
        self.at
            .scaled(self.end.min(line.at).saturating_sub(self.from))
    }

    pub fn settled_part(self, line: Line) -> u64
        ensures { (result ≡ self.at.q * (line.at - max self.from self.end)) × (result ≤ 24000000000000) }
    {
        self.at
            .scaled(line.at.saturating_sub(self.from.max(self.end)))
    }

    // To the end of a stretch, where the line's run starts.
    fn cross(self, line: Line) -> Progress
        ensures crossed { Crossed self.at.q self line.at line.end result }
        ensures at { result.at ≡ self.at }
    {
        let fast = self.fast_part(line);
        let settled = self.settled_part(line);
        let past_fast = self.left.saturating_sub(fast);
        Progress {
            at: self.at,
            from: line.at,
            end: line.end,
            left: past_fast.saturating_sub(2 * settled),
            gained: self.gained + 2 * self.left.min(fast) + past_fast.min(2 * settled),
        }
    }

    // Past a bond line. One that was passed before t_f starts nothing.
    pub fn pass(self, line: Line) -> Progress
        ensures passed { Passed self.at.q self line result }
        ensures at { result.at ≡ self.at }
    {
        if self.from <= line.at {
            self.cross(line)
        } else {
            self
        }
    }
}

impl CharringValues {
    // Where the way begins, with the time since t_f.
    pub fn at_failure(&self, at: Time) -> Progress
        ensures start { (result.from ≡ depth_at_failure self.now.panel) × (result.end ≡ first_end self.now.panel) × (result.gained ≡ 0) }
        ensures at { result.at ≡ at }
        ensures left { result.left ≡ 2 * plain_rate self.now.panel * (1000 * at.n - at.q * failure_of self.now.panel) }
    {
        let late = (1000 * at.n).saturating_sub(at.scaled(self.failure));
        Progress {
            at,
            from: self.depth,
            end: self.end,
            left: 2 * self.plain * late,
            gained: 0,
        }
    }

    // The back face, as the last line of the way. No run starts there.
    pub fn back_line(&self) -> Line
        ensures { (result.at ≡ self.now.back) × (result.end ≡ self.now.back) }
    {
        Line {
            at: self.back,
            end: self.back,
        }
    }

    // What has charred since t_f, in half picometres, times q.
    pub(crate) fn after(&self, at: Time) -> u64
        ensures { (result ≡ after_at self.now.panel at.n at.q) × (result ≤ 86400000000000) }
    {
        let mut progress = self.at_failure(at);
        for line in Lines::of(&self.panel) {
            progress = progress.pass(line);
        }
        progress.cross(self.back_line()).gained
    }
}
