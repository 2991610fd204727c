// The lines about a record's bytes.
ghost use Rattle.std.specs.Prelude.{◌≡◌};
ghost use Rattle.record.specs.Refusals.{bad_length, bad_board_count, bad_whole, byte_faults};

use crate::layout;
use crate::reader::{lamella_count, layout_in};
use numbers::bytes::bytes_at;
use refusals::ByteFaults;

fn bad_length(s: &[u8]) -> bool
    ensures { result ≡ bad_length s.now }
{
    let n = s.len();
    !(layout::SHORTEST..=layout::LONGEST).contains(&n)
        | (usize::from(u16::from_be_bytes(bytes_at(s, layout::LENGTH))) != n)
}

fn bad_board_count(s: &[u8]) -> bool
    ensures { result ≡ bad_board_count s.now }
{
    let layout = layout_in(s);
    (2 < layout.boards) | (s.len() < layout.length_with(1))
}

fn bad_whole(s: &[u8]) -> bool
    ensures { result ≡ bad_whole s.now }
{
    s.len() != layout_in(s).length_with(usize::from(lamella_count(s)))
}

// What the bytes say beside the panel that stands in them.
pub(crate) fn byte_faults(s: &[u8]) -> ByteFaults
    ensures { result ≡ byte_faults s.now }
{
    ByteFaults {
        length: bad_length(s),
        board_count: bad_board_count(s),
        lamella_count: bad_whole(s),
    }
}
