// The basic time of a layer, from the table of its role and material.
ghost use Rattle.std.specs.Prelude.{◌≡◌, ◌≤◌};
ghost use Rattle.limits.specs.Keeps.{ThicknessKeeps};
ghost use Rattle.basic_times.specs.Rules.{longest_time, basic_time};
ghost use Rattle.basic_times.specs.Tables.{table_of};

use crate::{
    Role, gypsum_insulation, gypsum_protection, osb_insulation, osb_protection,
    particle_board_insulation, particle_board_protection, wood_insulation, wood_protection,
};
use panel::Material;
use panel::materials::thicknesses;

// The basic times of a role and a material, from the thinnest layer on. They are held to their rule by computing its list.
#[derive(Clone, Copy)]
pub(crate) struct Table {
    pub(crate) role: Role,
    pub(crate) material: Material,
    pub(crate) entries: &'static [u32],
    ghost by_the_rule: { entries.now ≡ table_of role material },
}

impl Table {
    // A layer of the material must be allowed the thickness, which is kept as it is, here and in `time_at` and what layers asks
    // of a lamella: a thickness is a raw number of the panel, and of an accepted one `Keeps` says it.
    fn at(self, h: u16) -> u32
        requires { ThicknessKeeps self.material h }
        ensures { (result ≡ basic_time self.role self.material h) × (result ≤ longest_time) }
    {
        self.entries[usize::from(h - *thicknesses(self.material).start())]
    }
}

// A layer of the material must be allowed the thickness, in tenths of mm. The two are kept as they are: see `bad_thickness`.
// So are the arms, each of which reads its own table: a function that picks a `Table` was tried, and that what it answers keeps its rule was
// not proved without an answer that names tables.
pub fn time_at(role: Role, m: Material, h: u16) -> u32
    requires { ThicknessKeeps m h }
    ensures { (result ≡ basic_time role m h) × (result ≤ longest_time) }
{
    match (role, m) {
        (Role::Protection, Material::Gypsum) => gypsum_protection::TIMES.at(h),
        (Role::Insulation, Material::Gypsum) => gypsum_insulation::TIMES.at(h),
        (Role::Protection, Material::Wood) => wood_protection::TIMES.at(h),
        (Role::Insulation, Material::Wood) => wood_insulation::TIMES.at(h),
        (Role::Protection, Material::Osb) => osb_protection::TIMES.at(h),
        (Role::Insulation, Material::Osb) => osb_insulation::TIMES.at(h),
        (Role::Protection, Material::ParticleBoard) => particle_board_protection::TIMES.at(h),
        (Role::Insulation, Material::ParticleBoard) => particle_board_insulation::TIMES.at(h),
    }
}
