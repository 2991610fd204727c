// The table of refusals, lines 1, 2, 16, 3 to 11, 17, 12 and 13, for a panel alone and for one that stands in bytes.
ghost use Rattle.std.specs.Prelude.{◌≡◌, false};
ghost use Rattle.refusals.specs.Numbers.{by_number, refused_if};
ghost use Rattle.refusals.specs.Lines.{checked, down_to, below};
ghost use Rattle.refusals.specs.Causes.{bad_load, bad_count, bad_space};
ghost use Rattle.refusals.specs.Refusals.{table_lines, panel_lines};

use crate::ByteFaults;
use crate::causes::{
    bad_boards, bad_bond_or_gap, bad_count, bad_face, bad_failure_time, bad_lamellae, bad_load,
    bad_lvl, bad_rate, bad_section, bad_types, bad_version, none_along,
};
use crate::refusal::Refusal;
use panel::Panel;

// Refuses where a line's cause fits.
pub fn refuse_if(fits: bool, refusal: Refusal) -> Result<(), Refusal>
    ensures { result ≡ refused_if fits refusal }
{
    if fits { Err(refusal) } else { Ok(()) }
}

// Refuses a lent space of fewer places than needed. Both numbers are kept as they are: the space is of bytes or of depths.
pub fn check_space(needed: usize, given: usize) -> Result<(), Refusal>
    ensures { result ≡ refused_if (bad_space needed given) Refusal.Space }
{
    refuse_if(given < needed, Refusal::Space)
}

// Lines 1, 2, 16 and 3 to 10. What the bytes say and the panel stay as they are, two parameters: see `Accepted::in_bytes`.
fn check_upper(f: ByteFaults, p: Panel) -> Result<(), Refusal>
    ensures { by_number result ≡ checked (down_to 10 (table_lines f p)) }
{
    refuse_if(f.length, Refusal::Length)?;
    refuse_if(bad_version(p), Refusal::Version)?;
    refuse_if(bad_face(p), Refusal::Face)?;
    refuse_if(bad_bond_or_gap(p), Refusal::BondOrGap)?;
    refuse_if(bad_rate(p), Refusal::Rate)?;
    refuse_if(bad_load(p), Refusal::Load)?;
    refuse_if(f.board_count, Refusal::BoardCount)?;
    refuse_if(bad_types(p.cladding), Refusal::BoardTypes)?;
    refuse_if(bad_boards(p.cladding), Refusal::Boards)?;
    refuse_if(bad_failure_time(p), Refusal::FailureTime)?;
    refuse_if(f.lamella_count | bad_count(p.count), Refusal::LamellaCount)
}

// Lines 11, 17, 12 and 13. Lines 5 and 10 must leave numbers that the sums can hold.
fn check_lower(p: Panel) -> Result<(), Refusal>
    requires { (bad_load p ≡ false) × (bad_count p.count ≡ false) }
    ensures { by_number result ≡ checked (below 10 (panel_lines p)) }
{
    refuse_if(bad_lamellae(p), Refusal::Lamellae)?;
    refuse_if(bad_lvl(p), Refusal::Lvl)?;
    refuse_if(none_along(p), Refusal::NoneAlong)?;
    refuse_if(bad_section(p), Refusal::Section)
}

// The whole table. Its two parameters stay as they are: see `Accepted::in_bytes`.
pub fn check_table(f: ByteFaults, p: Panel) -> Result<(), Refusal>
    ensures { by_number result ≡ checked (table_lines f p) }
{
    check_upper(f, p)?;
    check_lower(p)
}
