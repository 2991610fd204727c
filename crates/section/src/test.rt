// Whether a depth passes.
ghost use Rattle.std.specs.Prelude.{◌≡◌, ◌*◌, ◌≤◌, leb};
ghost use Rattle.panel.specs.Products.{product_of, factor_of};
ghost use Rattle.section.specs.Tests.{edge, inertia, carries, depth_passes, SectionFits};
ghost use Rattle.section.specs.Between.{carries_between};

use crate::Remaining;
use crate::sums::section_at;
use panel::Panel;
use panel::products::{factor_of, product_of};

// What a section is tested with, within the limits of line 5: the product's factor in twentieths, the moment (N·m) and the strength (tenths
// of N/mm²).
#[derive(Clone, Copy)]
pub struct DesignValues {
    pub factor: u64,
    pub moment: u32,
    pub strength: u16,
    pub ghost factor_bound: { factor ≤ 23 },
    pub ghost moment_bound: { moment ≤ 1000000 },
    pub ghost strength_bound: { strength ≤ 400 },
}

impl Remaining {
    // 2N times the distance of the outermost fibre from the centroid.
    fn edge(self) -> u64
        ensures { (result ≡ edge self.section) × (result ≤ 32000000) }
    {
        let s = self.section;
        (s.p - 2 * s.n * s.lo).max(2 * s.n * s.hi - s.p)
    }

    // 12N times the second moment of area about the centroid.
    fn inertia(self) -> u64
        ensures { (result ≡ inertia self.section) × (result ≤ 1024000000000000) }
    {
        let s = self.section;
        4 * s.n * s.q - 3 * s.p * s.p
    }
}

impl DesignValues {
    // Those of a panel under a moment. Both must keep the limits of line 5.
    pub fn under(moment: u32, p: &Panel) -> DesignValues
        requires { (moment ≤ 1000000) × (p.now.strength ≤ 400) }
        ensures factor { result.factor ≡ factor_of (product_of p.now.bond) }
        ensures moment { result.moment ≡ moment }
        ensures strength { result.strength ≡ p.now.strength }
    {
        DesignValues {
            factor: factor_of(product_of(p.bond)),
            moment,
            strength: p.strength,
        }
    }

    // Under its own.
    pub fn of(p: &Panel) -> DesignValues
        requires { (p.now.moment ≤ 1000000) × (p.now.strength ≤ 400) }
        ensures factor { result.factor ≡ factor_of (product_of p.now.bond) }
        ensures moment { result.moment ≡ p.now.moment }
        ensures strength { result.strength ≡ p.now.strength }
    {
        DesignValues::under(p.moment, p)
    }

    // Whether the strength is not exceeded at the outermost fibre.
    fn is_within(self, e: u64, w: u64) -> bool
        requires e_bound { e ≤ 32000000 }
        requires w_bound { w ≤ 1024000000000000 }
        ensures { result ≡ leb (120000 * self.moment * e) (self.factor * self.strength * w) }
    {
        120000 * u64::from(self.moment) * e <= self.factor * u64::from(self.strength) * w
    }

    // Whether every depth from that of `shallow` to that of `deep` passes, tested at once.
    #[tactic(auto, unfolding(crate::specs::Between::carries_between))]
    pub fn sections_pass(self, shallow: Remaining, deep: Remaining) -> bool
        ensures { result ≡ carries_between self.factor self.moment self.strength shallow.section deep.section }
    {
        (0 < deep.section.n) & self.is_within(shallow.edge(), deep.inertia())
    }

    // Whether the depth of a section passes.
    #[tactic(auto, unfolding(crate::specs::Between::carries_between, crate::specs::Tests::carries))]
    pub fn section_passes(self, s: Remaining) -> bool
        ensures { result ≡ carries self.factor self.moment self.strength s.section }
    {
        self.sections_pass(s, s)
    }
}

// The panel must keep the limits of lines 5, 10 and 11. What is asked stays as it is: line 13 tests a panel that is not
// accepted yet.
pub fn depth_passes(p: Panel, depth: u32) -> bool
    requires { SectionFits p }
    ensures { result ≡ depth_passes p depth }
{
    DesignValues::of(&p).section_passes(section_at(p, depth))
}
