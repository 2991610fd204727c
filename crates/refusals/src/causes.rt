// The causes of lines 2 to 13, 16 and 17, each a test of a panel or of a part of it.
ghost use Rattle.std.specs.Prelude.{◌≡◌, ◌≤◌};
ghost use Rattle.panel.specs.Lamellae.{lamella, lies};
ghost use Rattle.panel.specs.Lent.{lamellae_in};
ghost use Rattle.section.specs.Tests.{SectionFits};
ghost use Rattle.refusals.specs.Causes.{bad_version, bad_face, bad_bond_or_gap, bad_rate, bad_moment, bad_load, bad_types, bad_board, bad_boards, bad_failure_time, bad_count, bad_lamella, bad_lamellae, bad_lvl, none_along, bad_section, some};

use panel::boards::{charring_start, is_f, is_known, is_wood_based, material_of, type_f};
use panel::lamellae::Lamellae;
use panel::materials::bad_thickness;
use panel::products::{LVL_RATE, is_lvl, product_of};
use panel::{Board, Cladding, Material, Panel, WHOLE_JOINT};
use section::test::depth_passes;

// `bad_version` and `bad_rate` stay as they are: a function over both would be `contains`.
pub(crate) fn bad_version(p: Panel) -> bool
    ensures { result ≡ bad_version p }
{
    !(1..=2).contains(&p.version)
}

// Raw numbers are kept as they are, here and below: a panel is plain data, whose numbers calls refuse.
pub(crate) fn bad_face(p: Panel) -> bool
    ensures { result ≡ bad_face p }
{
    (2 < p.face) | ((p.version == 1) & (p.face != 0))
}

// Raw numbers, kept as they are: see `bad_face`.
pub(crate) fn bad_bond_or_gap(p: Panel) -> bool
    ensures { result ≡ bad_bond_or_gap p }
{
    (2 < p.bond) | (1 < p.gap)
}

// A range, which stays as it is: see `bad_version`.
pub(crate) fn bad_rate(p: Panel) -> bool
    ensures { result ≡ bad_rate p }
{
    !(50..=100).contains(&p.rate)
}

// Public beside the others: a moment may be asked for alone. A raw number, kept as it is: see `bad_face`.
pub fn bad_moment(moment: u32) -> bool
    ensures { result ≡ bad_moment moment }
{
    1000000 < moment
}

pub(crate) fn bad_load(p: Panel) -> bool
    ensures { result ≡ bad_load p }
{
    !(1..=400).contains(&p.strength) | bad_moment(p.moment)
}

fn bad_pair(outer: Board, inner: Board) -> bool
    ensures { result ≡ bad_types (Cladding.Two outer inner) }
{
    !is_known(outer)
        | !is_known(inner)
        | (is_f(outer) != is_f(inner))
        | is_wood_based(outer)
        | is_wood_based(inner)
}

// Over the boards, as `bad_boards` is, which stays as it is: of two boards line 7 asks more than of each.
pub(crate) fn bad_types(c: Cladding) -> bool
    ensures { result ≡ bad_types c }
{
    match c {
        Cladding::Unclad => false,
        Cladding::One(b) => !is_known(b),
        Cladding::Two(outer, inner) => bad_pair(outer, inner),
    }
}

fn bad_board(b: Board) -> bool
    ensures { result ≡ bad_board b }
{
    bad_thickness(material_of(b.kind), b.thickness) | !(1..=WHOLE_JOINT).contains(&b.joint)
}

// Over the boards, which stays as it is: see `bad_types`.
pub(crate) fn bad_boards(c: Cladding) -> bool
    ensures { result ≡ bad_boards c }
{
    match c {
        Cladding::Unclad => false,
        Cladding::One(b) => bad_board(b),
        Cladding::Two(outer, inner) => bad_board(outer) | bad_board(inner),
    }
}

pub(crate) fn bad_failure_time(p: Panel) -> bool
    ensures { result ≡ bad_failure_time p }
{
    let c = p.cladding;
    if type_f(c) {
        !(charring_start(p.gap, c)..=360000).contains(&p.failure_time)
    } else {
        p.failure_time != 0
    }
}

pub(crate) fn bad_count(count: usize) -> bool
    ensures { result ≡ bad_count count }
{
    !(1..=9).contains(&count)
}

// A raw number, kept as it is: see `bad_face`.
fn bad_lamella(direction: u8, thickness: u16) -> bool
    ensures { result ≡ bad_lamella (lamella direction thickness) }
{
    (1 < direction) | bad_thickness(Material::Wood, thickness)
}

fn some_bad_lamella(lamellae: Lamellae<'_>) -> bool
    ensures { result ≡ some bad_lamella (lamellae_in lamellae.entry) }
{
    lamellae.directions.iter().zip(lamellae.thicknesses).any(|(direction, thickness)| bad_lamella(
        *direction, *thickness,
    ))
}

// The direction is a raw number, kept as it is: see `bad_face`.
fn some_lying(lamellae: Lamellae<'_>, direction: u8) -> bool
    ensures { result ≡ some (lies direction) (lamellae_in lamellae.entry) }
{
    lamellae.directions.contains(&direction)
}

// The count must be at most 9, which is kept as it is, here and below: the panel is not accepted yet.
pub(crate) fn bad_lamellae(p: Panel) -> bool
    requires { p.count ≤ 9 }
    ensures { result ≡ bad_lamellae p }
{
    let lamellae = p.lamellae();
    some_bad_lamella(lamellae) | (4000 < lamellae.total_thickness())
}

// The count, as above, is kept as it is, here and below.
pub(crate) fn bad_lvl(p: Panel) -> bool
    requires { p.count ≤ 9 }
    ensures { result ≡ bad_lvl p }
{
    is_lvl(product_of(p.bond)) & (some_lying(p.lamellae(), 0) | (p.rate != LVL_RATE))
}

pub(crate) fn none_along(p: Panel) -> bool
    requires { p.count ≤ 9 }
    ensures { result ≡ none_along p }
{
    !some_lying(p.lamellae(), 1)
}

// The section test must fit its numbers, which is kept as it is: the panel is not accepted yet.
pub(crate) fn bad_section(p: Panel) -> bool
    requires { SectionFits p }
    ensures { result ≡ bad_section p }
{
    !depth_passes(p, 0)
}
