// `time KIND H TEXT`: the basic time at a thickness in tenths of mm. KIND is `bp` or `bi` for protection or insulation by gypsum, as a board,
// `lp` or `li` by solid wood, as a lamella, `op` or `oi` by OSB, `pp` or `pi` by particle board. Prints the time in thousandths of a minute,
// or the refusal, and the text.
use basic_times::Role;
use basic_times::calls::basic_time;
use panel::Material;
use refusals::refusal::Refusal;

// None for another word.
pub fn time(word: &[u8], h: u16) -> Option<Result<u32, Refusal>> {
    let (role, material) = match word {
        b"bp" => (Role::Protection, Material::Gypsum),
        b"bi" => (Role::Insulation, Material::Gypsum),
        b"lp" => (Role::Protection, Material::Wood),
        b"li" => (Role::Insulation, Material::Wood),
        b"op" => (Role::Protection, Material::Osb),
        b"oi" => (Role::Insulation, Material::Osb),
        b"pp" => (Role::Protection, Material::ParticleBoard),
        b"pi" => (Role::Insulation, Material::ParticleBoard),
        _ => return None,
    };
    Some(basic_time(role, material, h))
}
