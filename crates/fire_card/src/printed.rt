// What is printed for a record. The longest card must fit into the lent space. That room stays as it is, asked of both: a
// lent array of that length would ask more of callers.
ghost use Rattle.std.specs.Prelude.{◌≡◌, ◌≤◌, length};
ghost use Rattle.fire_card.specs.Card.{card_most, refusal_text};
ghost use Rattle.fire_card.specs.Printed.{printed_text};
ghost use Rattle.refusals.specs.Numbers.{line_number};

use crate::calls;
use refusals::refusal::Refusal;

// The front of what a call wrote is kept as it is, cut out by a number: an open call answers how many bytes it wrote, as C wants it.
fn refusal_into(refusal: Refusal, out: &mut [u8]) -> &[u8]
    requires { card_most ≤ length out.old }
    ensures { result.now ≡ refusal_text (line_number refusal) }
{
    match calls::refusal(u8::from(refusal), out) {
        Ok(k) => &out[..k],
        Err(_) => &[],
    }
}

// The card, or the text of the refusal; the front is kept as it is, for the same reason.
pub fn text_for<'a>(bytes: &[u8], out: &'a mut [u8]) -> &'a [u8]
    requires { card_most ≤ length out.old }
    ensures { result.now ≡ printed_text bytes.now }
{
    match calls::card(bytes, out) {
        Ok(k) => &out[..k],
        Err(refusal) => refusal_into(refusal, out),
    }
}
