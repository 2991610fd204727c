// The section carried from one depth to the next, a tenth of mm deeper (document 02, 4/14).
ghost use Rattle.std.specs.Prelude.{◌≡◌, ◌+◌, ◌-◌, ◌*◌, ◌≤◌, ◌<◌, MatchOption, unwrap_or, length, take, drop};
ghost use Rattle.panel.specs.Lamellae.{thickness};
ghost use Rattle.panel.specs.Lent.{lamellae_in};
ghost use Rattle.section.specs.Sections.{counted, section_of};
ghost use Rattle.carried.specs.Carried.{without, step};
ghost use Rattle.carried.specs.Carrying.{EachThick, EachThick-prop, LamellaeFit, StepFits, next_along};

use panel::lamellae::Lamellae;
use section::sums::{Part, is_enough, section_in, where_none};
use section::{Remaining, Section};

// The section of lent lamellae, carried to a depth. Of the lamellae from the exposed face `place` are begun, the last of them ends at `end`,
// and the next along one begins at `next`. The place is kept as it is: the facts are of all lamellae and of those begun, so that both are
// wanted, and not the rest alone. Depths are in tenths of mm.
#[derive(Clone, Copy)]
pub struct Carried<'a> {
    pub lamellae: Lamellae<'a>,
    pub section: Section,
    pub depth: u64,
    pub place: usize,
    pub end: u64,
    pub next: Option<u64>,
    pub ghost short: { thickness (lamellae_in lamellae) ≤ 4000 },
    pub ghost each: { EachThick (lamellae_in lamellae) } by { EachThick-prop (lamellae_in lamellae) },
    pub ghost carried: { section ≡ section_of (counted depth (lamellae_in lamellae)) },
    pub ghost within: { depth ≤ thickness (lamellae_in lamellae) },
    pub ghost begun: { place ≤ length (lamellae_in lamellae) },
    pub ghost ends: { end ≡ thickness (take place (lamellae_in lamellae)) },
    pub ghost from: { thickness (take (place - 1) (lamellae_in lamellae)) ≤ depth },
    pub ghost to: { depth ≤ end },
    pub ghost after: { depth < end → next ≡ next_along end (drop place (lamellae_in lamellae)) },
}

// The sums with a part taken off at their exposed end. What is still counted begins at lo.
fn take_off(s: Section, part: Part, lo: u64) -> Section
    requires { (part.to - part.from ≤ s.n)
        × ((part.to * part.to - part.from * part.from ≤ s.p)
        × (part.to * part.to * part.to - part.from * part.from * part.from ≤ s.q)) }
    ensures { result ≡ without s (record { from = part.from; to = part.to }) lo }
{
    let n = s.n - (part.to - part.from);
    Section {
        n,
        p: s.p - part.squares(),
        q: s.q - part.cubes(),
        lo,
        hi: where_none(n, 0, s.hi),
    }
}

// The sums with the first tenth of mm taken off, where the first part begins. It is kept as it is beside
// `take_off`, for speed: nearly every step takes a tenth, and the powers need not be worked out (docs/SPEED.md).
fn take_tenth(s: Section) -> Section
    requires lo_bound { s.lo + 1 ≤ 4000 }
    requires le_n { (1 ≤ s.n) × ((2 * s.lo + 1 ≤ s.p) × (3 * s.lo * (s.lo + 1) + 1 ≤ s.q)) }
    ensures { result ≡ without s (record { from = s.lo; to = s.lo + 1 }) (s.lo + 1) }
{
    let n = s.n - 1;
    Section {
        n,
        p: s.p - (2 * s.lo + 1),
        q: s.q - (3 * s.lo * (s.lo + 1) + 1),
        lo: s.lo + 1,
        hi: where_none(n, 0, s.hi),
    }
}

// The step: it is given the section, where the lamella being cut ends, and where the next along one begins. Where none is along nothing is
// counted any more, and lo is 0.
fn step_of(s: Section, end: u64, next: Option<u64>) -> Section
    requires { StepFits s end }
    ensures { result ≡ step s end (unwrap_or next 0) }
{
    if !((0 < s.n) & (s.lo < end)) {
        return s;
    }
    if is_enough(s.lo + 1, end) {
        return take_tenth(s);
    }
    let part = Part {
        from: s.lo,
        to: end,
    };
    take_off(s, part, next.unwrap_or(0))
}

// Where the first lamella along begins, of lamellae the first of which begins at `top`. The test of a direction is kept as it is: it is a
// raw number of the panel, which calls refuse.
fn next_along(lamellae: Lamellae<'_>, top: u64) -> Option<u64>
    requires { top + thickness (lamellae_in lamellae) ≤ 4000 }
    ensures { result ≡ next_along top (lamellae_in lamellae.entry) }
{
    let mut at = top;
    for (direction, thick) in lamellae.directions.iter().zip(lamellae.thicknesses) {
        if *direction == 1 {
            return Some(at);
        }
        at += u64::from(*thick);
    }
    None
}

impl<'a> Carried<'a> {
    // At depth 0, where no lamella is cut yet. The lamellae must keep the limits of line 11. The next along one is known here too, and of all
    // that `deeper` answers (`after`), though a `Carried` need not know it where no lamella is being cut.
    pub fn start(lamellae: Lamellae<'a>) -> Carried<'a>
        requires { LamellaeFit (lamellae_in lamellae) }
        ensures along { (lamellae_in result.lamellae ≡ lamellae_in lamellae.entry) × (result.depth ≡ 0) }
        ensures after { result.next ≡ next_along result.end (drop result.place (lamellae_in result.lamellae)) }
    {
        Carried {
            lamellae,
            section: section_in(lamellae, 0).section,
            depth: 0,
            place: 0,
            end: 0,
            next: next_along(lamellae, 0),
        }
    }

    // What is tested of it.
    pub fn remaining(self) -> Remaining
        ensures { result.section ≡ self.entry.section }
    {
        Remaining {
            section: self.section,
        }
    }

    // With the next lamella begun; none where all are.
    fn begin_next(self) -> Option<Carried<'a>>
        requires { self.end ≤ self.depth }
        ensures { MatchOption result (self.entry.depth ≡ thickness (lamellae_in self.entry.lamellae))
            (λ begun. (lamellae_in begun.lamellae ≡ lamellae_in self.entry.lamellae) × ((begun.depth ≡ self.entry.depth) × (begun.depth < begun.end))) }
    {
        let thick = self.lamellae.thicknesses.get(self.place)?;
        let mut begun = self;
        begun.place += 1;
        begun.end += u64::from(*thick);
        begun.next = next_along(self.lamellae.starting_at(begun.place), begun.end);
        Some(begun)
    }

    // One tenth of mm deeper; none past the last lamella. Inlined wherever it is called: what is carried is 13 words, and a loop that calls it
    // would store and load them at each tenth (docs/SPEED.md).
    #[inline(always)]
    pub fn deeper(self) -> Option<Carried<'a>>
        ensures along { MatchOption result (self.entry.depth ≡ thickness (lamellae_in self.entry.lamellae))
            (λ next. (lamellae_in next.lamellae ≡ lamellae_in self.entry.lamellae) × (next.depth ≡ self.entry.depth + 1)) }
        ensures after { MatchOption result Unit (λ next. next.next ≡ next_along next.end (drop next.place (lamellae_in next.lamellae))) }
    {
        let mut cut = if self.depth < self.end {
            self
        } else {
            self.begin_next()?
        };
        cut.section = step_of(cut.section, cut.end, cut.next);
        cut.depth += 1;
        Some(cut)
    }
}
