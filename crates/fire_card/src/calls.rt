// The open calls of this crate: they ask nothing of their caller.
ghost use Rattle.std.specs.Prelude.{◌≡◌, []};
ghost use Rattle.refusals.specs.Numbers.{by_number};
ghost use Rattle.fire_card.specs.Answers.{text_answer, text_after, card_answer, card_after, refusal_answer, refusal_after};

use crate::lines::text_of_card;
use refusals::refusal::Refusal;
use refusals::table::check_space;
use text_lines::text::Text;

// Copies a text into the lent space, where it fits; answers how many bytes it has, which is kept as it is: see `card`.
fn write_text(text: &[u8], out: &mut [u8]) -> Result<usize, Refusal>
    ensures value { by_number result ≡ text_answer [] text.now out.old }
    ensures out_after { out.new ≡ text_after [] text.now out.old }
{
    let n = text.len();
    check_space(n, out.len())?;
    out[..n].copy_from_slice(text);
    Ok(n)
}

// The card of a record. The bytes, the space beside them and the number written are kept as they are, for C.
pub fn card(bytes: &[u8], out: &mut [u8]) -> Result<usize, Refusal>
    ensures value { by_number result ≡ card_answer bytes.now out.old }
    ensures out_after { out.new ≡ card_after bytes.now out.old }
{
    let accepted = record::calls::read(bytes)?;
    let text = text_of_card(accepted);
    write_text(text.as_slice(), out)
}

// The text of a refusal. The number is kept as it is: the papers print any number, and C hands one in.
pub fn refusal(n: u8, out: &mut [u8]) -> Result<usize, Refusal>
    ensures value { by_number result ≡ refusal_answer n out.old }
    ensures out_after { out.new ≡ refusal_after n out.old }
{
    let mut text = Text::<19>::new();
    text.push_line(b"REFUSED", &[u32::from(n)]);
    write_text(text.as_slice(), out)
}
