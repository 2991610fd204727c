// The sums over the counted parts, lamella by lamella from the exposed face.
ghost use Rattle.std.specs.Prelude.{◌≡◌, ◌+◌, ◌-◌, ◌*◌, ◌≤◌, ◌<◌, eqb, leb, []};
ghost use Rattle.numbers.specs.Choice.{pick};
ghost use Rattle.panel.specs.Lamellae.{lamella, thickness};
ghost use Rattle.panel.specs.Lent.{lamellae_in};
ghost use Rattle.section.specs.Sections.{least_remainder, counted, section_of};
ghost use Rattle.section.specs.Growing.{with_part, with_lamella, SumsTo};
ghost use Rattle.section.specs.Tests.{section_at, SectionFits};

use crate::{Remaining, Section};
use panel::Panel;
use panel::lamellae::Lamellae;

// 3.0 mm: a remainder under it is dropped.
const LEAST_REMAINDER: u64 = 30;

// A part of a panel of at most 400.0 mm, from one depth to another, in tenths of mm.
#[derive(Clone, Copy)]
pub struct Part {
    pub from: u64,
    pub to: u64,
    ghost forward: { from ≤ to },
    ghost within: { to ≤ 4000 },
}

// The sums over the lamellae from the exposed face to `end`, in tenths of mm.
#[derive(Clone, Copy)]
struct Sums {
    section: Section,
    end: u64,
    ghost within: { end ≤ 4000 },
    ghost bounds: { SumsTo end section },
}

impl Part {
    // b² − a².
    pub fn squares(self) -> u64
        ensures { (result ≡ self.to * self.to - self.from * self.from) × (result ≤ 16000000) }
    {
        self.to * self.to - self.from * self.from
    }

    // b³ − a³.
    pub fn cubes(self) -> u64
        ensures { (result ≡ self.to * self.to * self.to - self.from * self.from * self.from) × (result ≤ 64000000000) }
    {
        self.to * self.to * self.to - self.from * self.from * self.from
    }
}

// An outermost end: `none` where nothing is counted.
pub fn where_none(n: u64, none: u64, end: u64) -> u64
    ensures { result ≡ pick (eqb n 0) none end }
{
    if n == 0 { none } else { end }
}

// Whether what is left of a lamella is enough to count.
pub fn is_enough(a: u64, b: u64) -> bool
    requires { a < 4294967296 }
    ensures { result ≡ leb least_remainder (b - a) }
{
    a + LEAST_REMAINDER <= b
}

impl Sums {
    // Before the first lamella.
    #[tactic(auto, unfolding(crate::specs::Sections::section_of, crate::specs::Sections::total, crate::specs::Sections::lowest, crate::specs::Sections::highest))]
    fn at_face() -> Sums
        ensures { (result.section ≡ section_of []) × (result.end ≡ 0) }
    {
        Sums {
            section: Section {
                n: 0,
                p: 0,
                q: 0,
                lo: 0,
                hi: 0,
            },
            end: 0,
        }
    }

    // With one more counted part, deeper than the others.
    fn with_part(self, part: Part) -> Sums
        requires { self.end ≤ part.from }
        ensures { (result.section ≡ with_part self.section (record { from = part.from; to = part.to })) × (result.end ≡ part.to) }
    {
        let s = self.section;
        Sums {
            section: Section {
                n: s.n + (part.to - part.from),
                p: s.p + part.squares(),
                q: s.q + part.cubes(),
                lo: where_none(s.n, part.from, s.lo),
                hi: part.to,
            },
            end: part.to,
        }
    }

    // With one more lamella. Its direction is kept as it is: a raw number of the panel, which calls refuse.
    fn with_lamella(self, depth: u32, direction: u8, thick: u16) -> Sums
        requires { self.end + thick ≤ 4000 }
        ensures { (result.section ≡ with_lamella depth self.end (lamella direction thick) self.section) × (result.end ≡ self.end + thick) }
    {
        let to = self.end + u64::from(thick);
        if direction == 1 {
            let from = u64::from(depth).max(self.end);
            if is_enough(from, to) {
                return self.with_part(Part { from, to });
            }
        }
        Sums {
            section: self.section,
            end: to,
        }
    }
}

// The sums over lent lamellae, so that a scan of depths copies none. They must be of at most 400.0 mm.
pub fn section_in(lamellae: Lamellae<'_>, depth: u32) -> Remaining
    requires { thickness (lamellae_in lamellae) ≤ 4000 }
    ensures { result.section ≡ section_of (counted depth (lamellae_in lamellae.entry)) }
{
    let mut sums = Sums::at_face();
    for (direction, thick) in lamellae.directions.iter().zip(lamellae.thicknesses) {
        sums = sums.with_lamella(depth, *direction, *thick);
    }
    Remaining {
        section: sums.section,
    }
}

// The panel must keep the limits of lines 5, 10 and 11. What is asked stays as it is: a panel is plain data by value.
pub fn section_at(p: Panel, depth: u32) -> Remaining
    requires { SectionFits p }
    ensures { result.section ≡ section_at p depth }
{
    section_in(p.lamellae(), depth)
}
