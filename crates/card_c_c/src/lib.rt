// The static library for programs in C: one export for each function of `card_c`, with its clauses. `c/yurbantse.h` declares them. They ask
// nothing of their caller. The four and their clauses are kept as they are beside those of `card_c`: a crate is a library or a static
// library and not both, and demands stands on `card_c`.
#![tactic(auto)]

ghost use Rattle.std.specs.Prelude.{◌≡◌};
ghost use Rattle.fire_card.specs.Answers.{card_answer, card_after, refusal_answer, refusal_after};
ghost use Rattle.card_c.specs.Exported.{exported};
ghost use Rattle.card_c.specs.Planing.{record_planing, exported_cut};
ghost use Rattle.card_c.specs.Version.{last_request};

// Which requests of document 02 are in, by the last of them.
#[unsafe(no_mangle)]
pub extern "C" fn yurbantse_version() -> u32
    ensures { result ≡ last_request }
{
    card_c::yurbantse_version()
}

// The card of a record: the bytes written, or minus the refusal's number.
#[unsafe(no_mangle)]
// One number for the answer, and a space beside the bytes, are kept as they are: C wants them so.
pub extern "C" fn yurbantse_card(bytes: &[u8], out: &mut [u8]) -> i32
    ensures value { result ≡ exported (card_answer bytes.now out.old) }
    ensures out_after { out.new ≡ card_after bytes.now out.old }
{
    card_c::yurbantse_card(bytes, out)
}

// The text of a refusal: the bytes written, or minus 14.
#[unsafe(no_mangle)]
// One number for the answer, and one for the refusal, are kept as they are: C wants them so.
pub extern "C" fn yurbantse_refusal(n: u8, out: &mut [u8]) -> i32
    ensures value { result ≡ exported (refusal_answer n out.old) }
    ensures out_after { out.new ≡ refusal_after n out.old }
{
    card_c::yurbantse_refusal(n, out)
}

// The least cut of one lamella that lowers the REI grade of the record's panel: 1,000 times the lamella's place and the tenths of mm, 0
// where no cut does, or minus the refusal's number.
#[unsafe(no_mangle)]
// One number for the answer is kept as it is: C wants it so.
pub extern "C" fn yurbantse_planing(bytes: &[u8]) -> i32
    ensures { result ≡ exported_cut (record_planing bytes.now) }
{
    card_c::yurbantse_planing(bytes)
}
