// Whether boards and lamellae agree, in order, and face, bond, rate, gap and failure time.
ghost use Rattle.std.specs.Prelude.{◌≡◌, ◌≤◌};
ghost use Rattle.builds.specs.Builds.{same_cladding, same_lamellae, same_numbers, same_build};
ghost use Rattle.panel.specs.Lent.{lamellae_in};

use limits::check::Accepted;
use panel::lamellae::Lamellae;
use panel::{Cladding, Panel};

// The derived `==`, which stays as it is, with the promise that it meets the definition.
fn same_cladding(a: Cladding, b: Cladding) -> bool
    ensures { result ≡ same_cladding a b }
{
    a == b
}

// The slices' own `==`, which stays as it is, with the promise that it meets the definition.
fn same_lamellae(a: Lamellae<'_>, b: Lamellae<'_>) -> bool
    ensures { result ≡ same_lamellae (lamellae_in a.entry) (lamellae_in b.entry) }
{
    (a.directions == b.directions) & (a.thicknesses == b.thicknesses)
}

// Equality stays as it is, here and in `is_same_build`: the same build leaves fields out and goes by the used places, so that a panel derives
// none. Two panels to compare are kept as they are, too: no pair of which anything else is asked.
fn same_numbers(a: Panel, b: Panel) -> bool
    ensures { result ≡ same_numbers a b }
{
    (a.face == b.face)
        & (a.bond == b.bond)
        & (a.rate == b.rate)
        & (a.gap == b.gap)
        & (a.failure_time == b.failure_time)
}

// It stays as it is: see `same_numbers`.
pub(crate) fn is_same_build(a: Accepted, b: Accepted) -> bool
    ensures { result ≡ same_build a b }
{
    let (a, b) = (a.panel(), b.panel());
    same_cladding(a.cladding, b.cladding)
        & same_lamellae(a.lamellae(), b.lamellae())
        & same_numbers(a, b)
}
