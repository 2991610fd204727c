// The open calls of the card and of planing under plain names, for programs in C: `c/yurbantse.h` declares them, and the static library
// `card_c_c` exports them. They ask nothing of their caller.
#![tactic(auto)]

ghost use Rattle.std.specs.Prelude.{◌≡◌};
ghost use Rattle.refusals.specs.Numbers.{by_number};
ghost use Rattle.fire_card.specs.Answers.{card_answer, card_after, refusal_answer, refusal_after};
ghost use Rattle.card_c.specs.Exported.{exported, Short};
ghost use Rattle.card_c.specs.Planing.{record_planing, exported_cut};
ghost use Rattle.card_c.specs.Version.{last_request};

use planing::Cut;
use planing::search::least_cut;
use refusals::refusal::Refusal;

// Document 01 is followed with the requests of document 02 from the first to this one.
const LAST_REQUEST: u32 = 10;

// The last request that is in: for C, to hold the library to its header.
pub fn yurbantse_version() -> u32
    ensures { result ≡ last_request }
{
    LAST_REQUEST
}

// An answer as one number. The bytes written must be those of a card at most. The number and its cast are kept as they are: C
// is answered one `int32_t`, which holds the bytes by what is required; `try_from` would add a branch that never runs.
fn number_of(answer: Result<usize, Refusal>) -> i32
    requires { Short (by_number answer) }
    ensures { result ≡ exported (by_number answer) }
{
    match answer {
        Ok(k) => k as i32,
        Err(refusal) => -i32::from(u8::from(refusal)),
    }
}

// The card of a record: the bytes written, or minus the refusal's number, which is kept as it is: C has no `Result`. So is a space beside the
// bytes, as C lends them.
pub fn yurbantse_card(bytes: &[u8], out: &mut [u8]) -> i32
    ensures value { result ≡ exported (card_answer bytes.now out.old) }
    ensures out_after { out.new ≡ card_after bytes.now out.old }
{
    number_of(fire_card::calls::card(bytes, out))
}

// The text of a refusal: the bytes written, or minus 14, kept as it is, and a refusal by its number: C has neither `Result` nor `Refusal`.
pub fn yurbantse_refusal(n: u8, out: &mut [u8]) -> i32
    ensures value { result ≡ exported (refusal_answer n out.old) }
    ensures out_after { out.new ≡ refusal_after n out.old }
{
    number_of(fire_card::calls::refusal(n, out))
}

// The least cut of the panel that stands in a record.
#[tactic(auto, using(refusals::proofs::FirstLine::handed_on, refusals::proofs::FirstLine::worked_out), unfolding(crate::specs::Planing::record_planing, record::specs::Answers::decode))]
fn planing_of(bytes: &[u8]) -> Result<Option<Cut>, Refusal>
    ensures { by_number result ≡ record_planing bytes.now }
{
    let accepted = record::calls::read(bytes)?;
    Ok(least_cut(accepted))
}

// An answer as one number, which is kept as it is, and so is its cast: C is answered one `int32_t`, and a place and tenths of mm fit it.
fn cut_number(answer: Result<Option<Cut>, Refusal>) -> i32
    ensures { result ≡ exported_cut (by_number answer) }
{
    match answer {
        Ok(Some(cut)) => (1000 * u32::from(cut.place) + u32::from(cut.tenths)) as i32,
        Ok(None) => 0,
        Err(refusal) => -i32::from(u8::from(refusal)),
    }
}

// The least cut of one lamella that lowers the REI grade of the record's panel: 1,000 times the lamella's place and the tenths of mm, 0
// where no cut does, or minus the refusal's number, one number, which is kept as it is, for C.
pub fn yurbantse_planing(bytes: &[u8]) -> i32
    ensures { result ≡ exported_cut (record_planing bytes.now) }
{
    cut_number(planing_of(bytes))
}
