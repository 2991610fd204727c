// Depths tested many at once, from a first one on.
ghost use Rattle.std.specs.Prelude.{◌≡◌, ◌≤◌, true};
ghost use Rattle.panel.specs.Lamellae.{thickness};
ghost use Rattle.panel.specs.Lent.{lamellae_in};
ghost use Rattle.section.specs.Sections.{counted, section_of};
ghost use Rattle.section.specs.Tests.{carries};

use panel::lamellae::Lamellae;
use section::Remaining;
use section::sums::section_in;
use section::test::DesignValues;

// The depth `reached` passes, and the section there is `shallow`. Asked is whether every depth from it through `last` does; the next `ahead`
// are tested at once. Depths are in tenths of mm.
#[derive(Clone, Copy)]
pub(crate) struct Reach<'a> {
    pub(crate) reached: u64,
    pub(crate) last: u64,
    lamellae: Lamellae<'a>,
    design: DesignValues,
    shallow: Remaining,
    ahead: u64,
    ghost short: { thickness (lamellae_in lamellae) ≤ 4000 },
    ghost here: { shallow.section ≡ section_of (counted reached (lamellae_in lamellae)) },
    ghost passes: { carries design.factor design.moment design.strength shallow.section ≡ true },
    ghost within: { reached ≤ last },
    ghost last_most: { last ≤ 4000 },
    ghost ahead_least: { 1 ≤ ahead },
    ghost ahead_most: { ahead ≤ 8000 },
}

impl<'a> Reach<'a> {
    ghost use Rattle.std.specs.Prelude.{◌<◌, false, MatchOption};
    ghost use Rattle.load.specs.LoadMinute.{every_through};
    ghost use Rattle.load.specs.Reach.{passes_with, left_passes, most_ranges};

    // At the first depth, before any other is tested; none where it does not pass.
    pub(crate) fn start(
        lamellae: Lamellae<'a>,
        design: DesignValues,
        first: u64,
        last: u64,
    ) -> Option<Reach<'a>>
        requires short { thickness (lamellae_in lamellae) ≤ 4000 }
        requires order { (first ≤ last) × (last ≤ 4000) }
        ensures { MatchOption result (every_through (passes_with design (lamellae_in lamellae.entry)) first last ≡ false)
            (λ reach. left_passes reach ≡ every_through (passes_with design (lamellae_in lamellae.entry)) first last) }
    {
        let shallow = section_in(lamellae, first as u32);
        if !design.section_passes(shallow) {
            return None;
        }
        Some(Reach {
            reached: first,
            last,
            lamellae,
            design,
            shallow,
            ahead: last - first + 1,
        })
    }

    // Where every depth through `to` passes, what is left to be asked begins there; twice as many are tested next.
    fn reaching(self, to: u64, deep: Remaining) -> Reach<'a>
        requires further { (self.reached < to) × (to ≤ self.last) }
        requires deep_here { deep.section ≡ section_of (counted to (lamellae_in self.lamellae)) }
        requires pass { every_through (passes_with self.design (lamellae_in self.lamellae)) self.reached to ≡ true }
        ensures same { left_passes result ≡ left_passes self.entry }
        ensures fewer { most_ranges result < most_ranges self.entry }
    {
        Reach {
            reached: to,
            last: self.last,
            lamellae: self.lamellae,
            design: self.design,
            shallow: deep,
            ahead: 2 * (to - self.reached),
        }
    }

    // The next depths tested: half as many next where not all of them are known to pass. A single one is tested by itself; none where it does
    // not pass.
    pub(crate) fn next(self) -> Option<Reach<'a>>
        requires { self.reached < self.last }
        ensures { MatchOption result (left_passes self.entry ≡ false)
            (λ next. (left_passes next ≡ left_passes self.entry) × (most_ranges next < most_ranges self.entry)) }
    {
        let to = (self.reached + self.ahead).min(self.last);
        let deep = section_in(self.lamellae, to as u32);
        if to == self.reached + 1 {
            if !self.design.section_passes(deep) {
                return None;
            }
            return Some(self.reaching(to, deep));
        }
        if self.design.sections_pass(self.shallow, deep) {
            return Some(self.reaching(to, deep));
        }
        let mut nearer = self;
        nearer.ahead = (to - self.reached) / 2;
        Some(nearer)
    }
}
