// What is the same at every minute, worked out once for a panel.
ghost use Rattle.std.specs.Prelude.{◌≡◌, ◌-◌, ◌*◌, ◌≤◌, ◌<◌, min, eqb};
ghost use Rattle.numbers.specs.Choice.{pick};
ghost use Rattle.charring.specs.Rates.{fast_run, start_of, failure_of, k2, clad, passed_end};
ghost use Rattle.charring.specs.Fits.{CharringFits};
ghost use Rattle.charring.specs.Walk.{lines_left};

use crate::lines::Lines;
use crate::{CharringValues, FAST_RUN, TENTH};
use panel::boards::{charring_start, type_f};
use panel::products::rate_of;
use panel::{Cladding, Panel};

fn k2_of(c: Cladding) -> u64
    ensures { result ≡ k2 c }
{
    match c {
        Cladding::Unclad => 0,
        Cladding::One(inner) | Cladding::Two(_, inner) => 10000_u64.saturating_sub(
            18 * u64::from(inner.thickness),
        ),
    }
}

fn is_clad(c: Cladding) -> bool
    ensures { result ≡ clad c }
{
    !matches!(c, Cladding::Unclad)
}

fn start_of(p: Panel) -> u64
    ensures { result ≡ start_of p }
{
    u64::from(charring_start(p.gap, p.cladding))
}

fn failure_of(p: Panel, start: u64) -> u64
    requires { start ≡ start_of p }
    ensures { result ≡ failure_of p }
{
    if type_f(p.cladding) {
        u64::from(p.failure_time)
    } else {
        start
    }
}

fn intact_end(behind: bool, start: u64, failure: u64, plain: u64) -> u64
    requires { (plain ≤ 1000000) × (failure ≤ 360000) }
    ensures { result ≡ pick behind (pick (eqb start failure) (min (2 * plain * failure) fast_run) fast_run) 0 }
{
    let early = (2 * plain * failure).min(FAST_RUN);
    let end = if start == failure { early } else { FAST_RUN };
    if behind { end } else { 0 }
}

// Of the lines that are passed at a depth, the deepest sets the end.
fn passed_end(lines: Lines<'_>, deep: u64, intact: u64) -> u64
    ensures { result ≡ passed_end deep intact (lines_left lines.entry) }
{
    let mut end = intact;
    for line in lines {
        if line.at < deep {
            end = line.end;
        }
    }
    end
}

impl CharringValues {
    // The limits of lines 3, 4, 8, 9, 10 and 11 must hold. What is asked stays as it is: what is made here says it from then on.
    pub fn of(panel: Panel) -> CharringValues
        requires { CharringFits panel }
        ensures { result.panel ≡ panel }
    {
        let start = start_of(panel);
        let failure = failure_of(panel, start);
        let thick = panel.lamellae().total_thickness();
        let rate = rate_of(panel, thick);
        let slow = k2_of(panel.cladding) * rate;
        let depth = slow * (failure - start);
        let intact = intact_end(is_clad(panel.cladding), start, failure, 10000 * rate);
        CharringValues {
            panel,
            start,
            failure,
            slow,
            plain: 10000 * rate,
            depth,
            end: passed_end(Lines::of(&panel), depth, intact),
            back: TENTH * u64::from(thick),
            full: start.max(20000),
        }
    }
}
