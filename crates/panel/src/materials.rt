// The thicknesses that a layer may have, in tenths of mm, by what it is made of.
ghost use Rattle.std.specs.Prelude.{◌≡◌, false};
ghost use Rattle.std.specs.Range.{range_inclusive_start, range_inclusive_end, range_inclusive_exhausted};
ghost use Rattle.panel.specs.Materials.{thinnest, thickest, bad_thickness};

use crate::Material;
use std::ops::RangeInclusive;

// From the thinnest to the thickest.
pub fn thicknesses(m: Material) -> RangeInclusive<u16>
    ensures thinnest { range_inclusive_start result ≡ thinnest m }
    ensures thickest { range_inclusive_end result ≡ thickest m }
    ensures whole { range_inclusive_exhausted result ≡ false }
{
    match m {
        Material::Gypsum => 90..=250,
        Material::Wood => 100..=600,
        Material::Osb | Material::ParticleBoard => 200..=400,
    }
}

// Whether no layer of the material has this thickness. The two are kept as they are, apart: a board's material follows from its type and a
// lamella's is wood, so that no panel holds them together.
pub fn bad_thickness(m: Material, h: u16) -> bool
    ensures { result ≡ bad_thickness m h }
{
    !thicknesses(m).contains(&h)
}
