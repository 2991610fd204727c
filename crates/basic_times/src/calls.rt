// The open call of this crate: the basic time at a bare thickness in tenths of mm. It asks nothing of its caller.
ghost use Rattle.std.specs.Prelude.{◌≡◌};
ghost use Rattle.refusals.specs.Numbers.{by_number, line_number};
ghost use Rattle.basic_times.specs.Answers.{bare_line, time_answer};

use crate::Role;
use crate::times::time_at;
use panel::Material;
use panel::materials::bad_thickness;
use refusals::refusal::Refusal;
use refusals::table::refuse_if;

fn bare_line(m: Material) -> Refusal
    ensures { line_number result ≡ bare_line m }
{
    match m {
        Material::Wood => Refusal::Lamellae,
        Material::Gypsum | Material::Osb | Material::ParticleBoard => Refusal::Boards,
    }
}

// The material and the thickness are kept as they are, apart: see `bad_thickness` (panel).
pub fn basic_time(role: Role, m: Material, h: u16) -> Result<u32, Refusal>
    ensures { by_number result ≡ time_answer role m h }
{
    refuse_if(bad_thickness(m, h), bare_line(m))?;
    Ok(time_at(role, m, h))
}
