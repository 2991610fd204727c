// The bond lines that matter, one after the other from the exposed face.
ghost use Rattle.std.specs.Prelude.{◌≡◌, ◌+◌, ◌*◌, ◌≤◌};
ghost use Rattle.panel.specs.Lamellae.{lamellae, thickness};
ghost use Rattle.charring.specs.Rates.{tenth, fast_run, line_end};
ghost use Rattle.charring.specs.Lines.{by_thickness};

use crate::{FAST_RUN, TENTH};
use panel::Panel;

// A line: its depth, and where a run that starts there ends, in picometres.
#[derive(Clone, Copy)]
pub struct Line {
    pub at: u64,
    pub end: u64,
    ghost at_most: { at ≤ 400000000000 },
    ghost end_most: { end ≤ 425000000000 },
}

// The lines below a depth, in picometres, where the lamellae that are left begin, by their thicknesses, in tenths of mm.
#[derive(Clone, Copy)]
pub struct Lines<'a> {
    pub top: u64,
    pub rest: &'a [u16],
    ghost within: { top + tenth * thickness (by_thickness rest.now) ≤ 400000000000 },
}

impl<'a> Lines<'a> {
    ghost use Rattle.charring.specs.Rates.{bond_lines};
    ghost use Rattle.charring.specs.Walk.{lines_left};

    // The lines of a panel. Where the bond does not fall there are none, so in LVL none. The limits of lines 10 and 11 must hold; what is asked
    // is kept as it is, since a fire is made of a panel that no `Accepted` need be. The bond's number is kept as it is: a panel is plain data,
    // whose raw numbers calls refuse. So is the used front of the thicknesses: directions do not matter here, and no `Lamellae` is wanted.
    pub fn of(p: &'a Panel) -> Lines<'a>
        requires { (p.now.count ≤ 9) × (thickness (lamellae p.now) ≤ 4000) }
        ensures { lines_left result ≡ bond_lines p.now }
    {
        if p.bond != 1 {
            return Lines { top: 0, rest: &[] };
        }
        Lines {
            top: 0,
            rest: &p.thicknesses[..p.count],
        }
    }

    // Where a run ends that starts where these begin: 25 mm past that depth or at the next line, whichever is nearer.
    fn run_end(&self) -> u64
        ensures { (result ≡ line_end self.now.top (lines_left self.now)) × (result ≤ self.now.top + fast_run) }
    {
        let past = self.top + FAST_RUN;
        match self.rest {
            [next, _, ..] => past.min(self.top + TENTH * u64::from(*next)),
            _ => past,
        }
    }
}

impl Iterator for Lines<'_> {
    ghost use Rattle.std.specs.Iterator.{item_count};
    ghost use Rattle.charring.specs.Walk.{lines_left, GivesLine};

    type Item = Line;

    ghost next_gives = { GivesLine };

    ghost remaining = { item_count lines_left };

    fn next(&mut self) -> Option<Line> {
        let (first, rest) = self.rest.split_first()?;
        if rest.is_empty() {
            // The back face is no line.
            return None;
        }
        let at = self.top + TENTH * u64::from(*first);
        self.top = at;
        self.rest = rest;
        Some(Line {
            at,
            end: self.run_end(),
        })
    }
}
