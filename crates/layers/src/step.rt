// The time that one layer gives.
ghost use Rattle.std.specs.Prelude.{◌≡◌, ◌+◌, ◌*◌, ◌≤◌};
ghost use Rattle.numbers.specs.Largest.{largest};
ghost use Rattle.panel.specs.Boards.{whole_joint};
ghost use Rattle.basic_times.specs.Rules.{longest_time};
ghost use Rattle.layers.specs.Bounds.{longest_sum};
ghost use Rattle.layers.specs.Layers.{late_keeps, positioned, layer_time};

use numbers::search::last_keeping;
use panel::WHOLE_JOINT;

// A layer's basic time, and the sum of the layer times before it, in thousandths of a minute.
#[derive(Clone, Copy)]
struct Step {
    before: u64,
    basic: u64,
    ghost before_most: { before ≤ longest_sum },
    ghost basic_most: { basic ≤ longest_time },
}

impl Step {
    fn late_keeps(self, n: u64) -> bool
        requires { n ≤ longest_time + 1 }
        ensures { result ≡ late_keeps self.before self.basic n }
    {
        4 * n * n * self.before <= self.basic * self.basic * self.basic
    }

    // The largest n with 4·n²·S ≤ t³, which is not above t.
    fn late_time(self) -> u64
        ensures { (result ≡ largest (late_keeps self.before self.basic) self.basic) × (result ≤ self.basic) }
    {
        last_keeping(self.basic + 1, |n| self.late_keeps(n))
    }

    // Before its joint coefficient.
    fn position(self) -> u64
        ensures { (result ≡ positioned self.before self.basic) × (result ≤ self.basic) }
    {
        if 2 * self.before <= self.basic {
            (5 * self.basic - 3 * self.before) / 5
        } else {
            self.late_time()
        }
    }
}

// The sum and the time are within what layers give, and the coefficient takes at most the whole off.
pub(crate) fn layer_time(before: u32, basic: u32, joint: u8) -> u32
    requires { (before ≤ longest_sum) × ((basic ≤ longest_time) × (joint ≤ whole_joint)) }
    ensures { (result ≡ layer_time before basic joint) × (result ≤ basic) }
{
    let step = Step {
        before: u64::from(before),
        basic: u64::from(basic),
    };
    // The cast is kept as it is: `try_from` would add a branch that never runs.
    (step.position() * u64::from(joint) / u64::from(WHOLE_JOINT)) as u32
}
