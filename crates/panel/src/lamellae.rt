// The lamellae of a panel, lent.
ghost use Rattle.std.specs.Prelude.{◌≡◌, ◌≤◌, length, sum};

use crate::Panel;

// Lamella i, from the first face, has its direction and its thickness at place i of two slices of the same length. They are kept as they are,
// two: a panel holds two arrays, which are lent and not copied.
#[derive(Clone, Copy)]
pub struct Lamellae<'a> {
    pub directions: &'a [u8],
    pub thicknesses: &'a [u16],
    pub ghost aligned: { length directions.now ≡ length thicknesses.now },
}

// The sum of at most nine thicknesses.
pub fn sum_of(thicknesses: &[u16]) -> u32
    requires { length thicknesses.now ≤ 9 }
    ensures { result ≡ sum thicknesses.now }
{
    thicknesses.iter().map(|t| u32::from(*t)).sum()
}

impl<'a> Lamellae<'a> {
    ghost use Rattle.std.specs.Prelude.{drop};
    ghost use Rattle.panel.specs.Lamellae.{thickness};
    ghost use Rattle.panel.specs.Lent.{lamellae_in};

    // Those from a place on. It and `Panel::lamellae` are kept as they are: each cuts both slices in one struct literal, one in front and the
    // other at the end.
    pub fn starting_at(self, place: usize) -> Lamellae<'a>
        requires { place ≤ length self.directions.now }
        ensures { lamellae_in result ≡ drop place (lamellae_in self.entry) }
    {
        Lamellae {
            directions: &self.directions[place..],
            thicknesses: &self.thicknesses[place..],
        }
    }

    // How thick they are together. A panel has at most nine.
    pub fn total_thickness(self) -> u32
        requires { length (lamellae_in self) ≤ 9 }
        ensures { result ≡ thickness (lamellae_in self.entry) }
    {
        sum_of(self.thicknesses)
    }
}

impl Panel {
    ghost use Rattle.panel.specs.Lamellae.{lamellae};
    ghost use Rattle.panel.specs.Lent.{lamellae_in};

    // Those of a panel. The count must be at most 9. Kept as it is: see `starting_at`.
    pub fn lamellae(&self) -> Lamellae<'_>
        requires { self.now.count ≤ 9 }
        ensures { lamellae_in result ≡ lamellae self.now }
    {
        Lamellae {
            directions: &self.directions[..self.count],
            thicknesses: &self.thicknesses[..self.count],
        }
    }
}
