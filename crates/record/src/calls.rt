// The open calls of this crate: they ask nothing of their caller.
ghost use Rattle.std.specs.Prelude.{◌≡◌};
ghost use Rattle.refusals.specs.Numbers.{by_number};
ghost use Rattle.record.specs.Answers.{decode, write_answer, space_after};

use crate::faults::byte_faults;
use crate::reader::panel_in;
use crate::taken::taken_for;
use crate::writer::{put_record, record_length};
use limits::check::Accepted;
use panel::Panel;
use refusals::refusal::Refusal;
use refusals::table::check_space;

// The panel that stands in a record of any length, or the refusal. No byte is the record of panel G.
pub fn read(s: &[u8]) -> Result<Accepted, Refusal>
    ensures { by_number result ≡ decode s.now }
{
    let record = taken_for(s);
    Accepted::in_bytes(byte_faults(record), panel_in(record))
}

// Writes a panel's record into the lent space; answers how many bytes it has.
pub fn write(p: Panel, out: &mut [u8]) -> Result<usize, Refusal>
    ensures value { by_number result ≡ write_answer p out.old }
    ensures out_after { out.new ≡ space_after p out.old }
{
    let accepted = Accepted::of(p)?;
    let length = record_length(accepted);
    check_space(length, out.len())?;
    put_record(out, accepted);
    Ok(length)
}
