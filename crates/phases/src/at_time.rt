// The phase of a fire at a time.
ghost use Rattle.std.specs.Prelude.{◌≡◌, ◌-◌, ◌*◌, ◌≤◌, ltb};
ghost use Rattle.charring.specs.Way.{way};
ghost use Rattle.phases.specs.Phases.{phase_in, phase_after, phase_at};

use crate::Phase;
use charring::lines::Lines;
use charring::{CharringValues, Progress, Time};

// In a stretch whose fast part is so long, times q. The cast is kept as it is: it fits, and a `try_from` would add an error
// that never comes.
fn phase_in(progress: Progress, fast: u64) -> Phase
    ensures { result ≡ phase_in (ltb progress.left fast) progress.end }
{
    if progress.left < fast {
        Phase::Fast((progress.end / 10000) as u32)
    } else {
        Phase::Settled
    }
}

// On the way from t_f on.
fn phase_after(fire: &CharringValues, at: Time) -> Phase
    ensures { result ≡ phase_after fire.now.panel (way fire.now.panel) at.n at.q }
{
    let mut progress = fire.at_failure(at);
    for line in Lines::of(&fire.panel) {
        let fast = progress.fast_part(line);
        let settled = progress.settled_part(line);
        if progress.left < fast + 2 * settled {
            return phase_in(progress, fast);
        }
        progress = progress.pass(line);
    }
    phase_in(progress, progress.fast_part(fire.back_line()))
}

// At n/q minutes. Three tests, each of another kind, stay as they are: the first that holds decides.
pub fn phase_at(fire: &CharringValues, at: Time) -> Phase
    ensures { result ≡ phase_at fire.now.panel at.n at.q }
{
    let time = 1000 * at.n;
    if 2 * at.scaled(fire.back) <= fire.char(at) {
        return Phase::Settled;
    }
    if time < at.scaled(fire.start) {
        return Phase::Untouched;
    }
    if time < at.scaled(fire.failure) {
        return Phase::UnderCladding;
    }
    phase_after(fire, at)
}
