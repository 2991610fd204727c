// The depth table: a depth for each minute 0 to 360.
ghost use Rattle.std.specs.Prelude.{◌≡◌, ◌++◌, ◌≤◌, length, drop};
ghost use Rattle.phases.specs.Answers.{table_length, depth_table};

use crate::ENTRIES;
use charring::CharringValues;

// The space must be there. The cast is kept as it is: std has no `From<usize>` of u64, and a
// `try_from` would add an error that never comes.
pub fn fill(fire: &CharringValues, out: &mut [u32])
    requires { table_length ≤ length out.old }
    ensures { out.new ≡ depth_table fire.now.panel ++ drop table_length out.old }
{
    for (minute, depth) in out[..ENTRIES].iter_mut().enumerate() {
        *depth = fire.micrometres(minute as u64);
    }
}
