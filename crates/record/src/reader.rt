// Takes a record apart by the layout. Nothing is asked of the bytes: one past the end reads as 0, and the table of refusals says
// whether the panel stands for a record.
ghost use Rattle.std.specs.Prelude.{◌≡◌, ◌≤◌, ◌<◌, get_or};
ghost use Rattle.record.specs.Layouts.{version_of, front_of, body, count_of_boards, count_of_lamellae, board_at, cladding_at, lamellae_in, arrays_of, record_lamellae, panel_in};

use crate::layout::Layout;
use crate::{Lamellae, layout};
use numbers::bytes::{byte_at, bytes_at, part_from};
use panel::{Board, Cladding, Panel};

fn version_of(s: &[u8]) -> u8
    ensures { result ≡ version_of s.now }
{
    byte_at(s, layout::VERSION)
}

// The face, which only version 2 has. The version's number is kept as it is: a panel is plain data.
fn face_of(s: &[u8]) -> u8
    ensures { result ≡ get_or (front_of s.now) 2 0 }
{
    if version_of(s) == 2 {
        return byte_at(s, layout::FACE);
    }
    0
}

// What follows the front.
fn body_of(s: &[u8]) -> &[u8]
    ensures { result.now ≡ body s.now }
{
    part_from(s, layout::front(version_of(s)))
}

// c, the number of boards.
fn board_count(s: &[u8]) -> u8
    ensures { result ≡ count_of_boards s.now }
{
    byte_at(body_of(s), layout::BOARDS)
}

pub(crate) fn layout_in(s: &[u8]) -> Layout
    ensures { (result.version ≡ version_of s.now) × (result.boards ≡ count_of_boards s.now) }
{
    Layout {
        version: version_of(s),
        boards: board_count(s),
    }
}

// n, the number of lamellae.
pub(crate) fn lamella_count(s: &[u8]) -> u8
    ensures { result ≡ count_of_lamellae s.now }
{
    byte_at(s, layout_in(s).count_place())
}

// Board i after the head.
fn board_at(t: &[u8], i: usize) -> Board
    requires { i < 2 }
    ensures { result ≡ board_at t.now i }
{
    let at = layout::HEAD + layout::BOARD * i;
    Board {
        kind: byte_at(t, at),
        thickness: u16::from_be_bytes(bytes_at(t, at + layout::BOARD_THICKNESS)),
        joint: byte_at(t, at + layout::JOINT),
    }
}

fn cladding_at(c: u8, t: &[u8]) -> Cladding
    ensures { result ≡ cladding_at c t.now }
{
    match c {
        0 => Cladding::Unclad,
        1 => Cladding::One(board_at(t, 0)),
        _ => Cladding::Two(board_at(t, 0), board_at(t, 1)),
    }
}

// The first n lamellae of the lamella bytes, in arrays that are kept as they are: see `Lamellae`. The loop counts, since a place past the end
// reads as 0, which chunks of the slice would not give.
#[tactic(auto, unfolding(crate::specs::Layouts::lamellae_in))]
fn lamellae_in(u: &[u8], n: usize) -> Lamellae
    requires { n ≤ 9 }
    ensures { result ≡ arrays_of (lamellae_in u.now n) }
{
    let mut directions = [0u8; 9];
    let mut thicknesses = [0u16; 9];
    for i in 0..n {
        let at = layout::LAMELLA * i;
        directions[i] = byte_at(u, at);
        thicknesses[i] = u16::from_be_bytes(bytes_at(u, at + layout::THICKNESS));
    }
    Lamellae {
        directions,
        thicknesses,
    }
}

// The lamella bytes are the part of the record that begins after the last board and the byte n.
fn lamellae_of(s: &[u8]) -> Lamellae
    ensures { result ≡ arrays_of (record_lamellae s.now) }
{
    let from = layout_in(s).lamella_place();
    lamellae_in(part_from(s, from), usize::from(lamella_count(s)).min(9))
}

// The panel that stands in the bytes; its arrays are kept as they are: see `Lamellae`.
pub(crate) fn panel_in(s: &[u8]) -> Panel
    ensures { result ≡ panel_in s.now }
{
    let t = body_of(s);
    let Lamellae {
        directions,
        thicknesses,
    } = lamellae_of(s);
    Panel {
        version: version_of(s),
        face: face_of(s),
        bond: byte_at(t, layout::BOND),
        rate: byte_at(t, layout::RATE),
        gap: byte_at(t, layout::GAP),
        strength: u16::from_be_bytes(bytes_at(t, layout::STRENGTH)),
        moment: u32::from_be_bytes(bytes_at(t, layout::MOMENT)),
        failure_time: u32::from_be_bytes(bytes_at(t, layout::FAILURE_TIME)),
        cladding: cladding_at(board_count(s), t),
        count: usize::from(lamella_count(s)),
        directions,
        thicknesses,
    }
}
