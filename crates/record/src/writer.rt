// Puts a record together by the layout.
ghost use Rattle.std.specs.Prelude.{◌≡◌, [], ◌∷◌, ◌++◌, ◌+◌, ◌*◌, ◌≤◌, ◌<◌, length};
ghost use Rattle.std.proofs.lemmas.List.Edits.{sets};
ghost use Rattle.numbers.specs.Bytes.{join};
ghost use Rattle.panel.specs.Lamellae.{lamella};
ghost use Rattle.panel.specs.Lent.{lamellae_in};
ghost use Rattle.panel.specs.Boards.{boards_of};
ghost use Rattle.record.specs.Layouts.{front_widths, head_widths, board_widths, lamella_widths, front_length, board_length, count_length, lamella_length, longest, record_length, front_numbers, head_numbers, board_numbers, lamella_numbers, board_bytes, lamella_bytes, tail_bytes, encode};

use crate::layout;
use crate::layout::Layout;
use limits::check::Accepted;
use numbers::bytes::put;
use panel::lamellae::Lamellae;
use panel::{Board, Cladding, Panel};

fn boards_of(c: Cladding) -> u8
    ensures { (result ≡ length (boards_of c)) × (result ≤ 2) }
{
    match c {
        Cladding::Unclad => 0,
        Cladding::One(_) => 1,
        Cladding::Two(_, _) => 2,
    }
}

fn layout_of(p: Panel) -> Layout
    ensures { (result.version ≡ p.version) × (result.boards ≡ length (boards_of p.cladding)) × (result.boards ≤ 2) }
{
    Layout {
        version: p.version,
        boards: boards_of(p.cladding),
    }
}

// The bytes of a board.
fn board(b: Board) -> [u8; layout::BOARD]
    ensures { result ≡ join board_widths (board_numbers b) }
{
    let [high, low] = b.thickness.to_be_bytes();
    [b.kind, high, low, b.joint]
}

// The room asked for is kept as it is, here and in the functions below: it differs from part to part, and a lent array of that length would
// come out of `first_chunk_mut`, an `Option` whose `None` never comes.
#[tactic(auto, unfolding(crate::specs::Layouts::board_bytes))]
fn put_cladding(out: &mut [u8], c: Cladding)
    requires { board_length * length (boards_of c) ≤ length out.old }
    ensures { out.new ≡ sets out.old 0 (board_bytes (boards_of c)) }
{
    match c {
        Cladding::Unclad => {}
        Cladding::One(b) => put(out, 0, board(b)),
        Cladding::Two(outer, inner) => {
            put(out, 0, board(outer));
            put(out, layout::BOARD, board(inner));
        }
    }
}

// The bytes of a lamella. The direction's number is kept as it is: a panel is plain data.
fn lamella(direction: u8, thickness: u16) -> [u8; layout::LAMELLA]
    ensures { result ≡ join lamella_widths (lamella_numbers (lamella direction thickness)) }
{
    let [high, low] = thickness.to_be_bytes();
    [direction, high, low]
}

// The room is kept as it is: see `put_cladding`.
#[tactic(auto, unfolding(crate::specs::Layouts::lamella_bytes, panel::specs::Lamellae::lamellae_of))]
fn put_lamellae(out: &mut [u8], lamellae: Lamellae<'_>)
    requires { lamella_length * length lamellae.directions.now ≤ length out.old }
    ensures { out.new ≡ sets out.old 0 (lamella_bytes (lamellae_in lamellae.entry)) }
{
    for (i, (direction, thickness)) in lamellae
        .directions
        .iter()
        .zip(lamellae.thicknesses)
        .enumerate()
    {
        put(out, layout::LAMELLA * i, lamella(*direction, *thickness));
    }
}

// The bytes of the head.
fn head(p: Panel) -> [u8; layout::HEAD]
    ensures { result ≡ join head_widths (head_numbers p) }
{
    let [f1, f0] = p.strength.to_be_bytes();
    let [m3, m2, m1, m0] = p.moment.to_be_bytes();
    let [t3, t2, t1, t0] = p.failure_time.to_be_bytes();
    let c = boards_of(p.cladding);
    [
        p.bond, p.rate, p.gap, f1, f0, m3, m2, m1, m0, c, t3, t2, t1, t0,
    ]
}

// The number n of lamellae, then each lamella. The room is kept as it is, and so is the cast: n is at most nine, and a `try_from`
// would add an error that never comes.
fn put_tail(out: &mut [u8], accepted: Accepted)
    requires { count_length + lamella_length * accepted.count ≤ length out.old }
    ensures { out.new ≡ sets out.old 0 (tail_bytes accepted) }
{
    let p = accepted.panel();
    put(out, 0, [p.count as u8]);
    put_lamellae(&mut out[layout::COUNT..], p.lamellae());
}

// The length of a panel's record.
pub(crate) fn record_length(accepted: Accepted) -> usize
    ensures { (result ≡ record_length accepted) × (result ≤ longest) }
{
    let p = accepted.panel();
    layout_of(p).length_with(p.count)
}

// The length, the version, and in version 2 the face. The room, the version's number and the cast of the length are kept as they are: see
// `put_tail`.
fn put_front(out: &mut [u8], accepted: Accepted)
    requires { front_length accepted.version ≤ length out.old }
    ensures { out.new ≡ sets out.old 0 (join (front_widths accepted.version) (front_numbers accepted)) }
{
    let p = accepted.panel();
    put(
        out,
        layout::LENGTH,
        (record_length(accepted) as u16).to_be_bytes(),
    );
    put(out, layout::VERSION, [p.version]);
    if p.version == 2 {
        put(out, layout::FACE, [p.face]);
    }
}

// Stores a panel's record at the start of the space. The record must fit. The room is kept as it is: see `put_cladding`.
pub(crate) fn put_record(out: &mut [u8], accepted: Accepted)
    requires { record_length accepted ≤ length out.old }
    ensures { out.new ≡ sets out.old 0 (encode accepted) }
{
    let p = accepted.panel();
    let front = layout::front(p.version);
    let tail = layout_of(p).count_place();
    put_front(out, accepted);
    put(out, front, head(p));
    put_cladding(&mut out[front + layout::HEAD..], p.cladding);
    put_tail(&mut out[tail..], accepted);
}
