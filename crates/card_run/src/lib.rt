// What the program `card` and its sibling `cards` share: of one input, the card of the record in it or `REFUSED n` on standard output, and
// the line on standard error where a read or the write fails.
#![tactic(auto)]

ghost use Rattle.std.specs.Prelude.{◌≡◌, [], IfOk, IfSome};
ghost use Rattle.fire_card.specs.Printed.{printed_text};
ghost use Rattle.card_run.specs.Input.{PrintsAsWhole, IsPrinted};

use fire_card::CARD_MOST;
use fire_card::printed::text_for;
use lent_input::read_full;
use std::io;
use std::io::Read;
use std::process::ExitCode;

// One byte more than the longest record has, and some to spare.
const ROOM: usize = 64;

// What of the input fits into the space, which has room for one byte more than the longest record: so what is printed for the bytes read is
// what is printed for the whole input, and for all that was left in the reader, where std knows that. After a failed read there are none: no
// byte, for which a card is printed too, is what is read only of an input that ended with none.
fn read_input<'a, R: Read>(input: &mut R, space: &'a mut [u8; ROOM]) -> io::Result<&'a [u8]>
    ensures any { IfOk result (λ read. PrintsAsWhole ROOM read.now) }
    ensures left { IfOk result (λ read. IfSome (R.remaining input.old) (λ left. printed_text read.now ≡ printed_text left)) }
    ensures none { IfOk result (λ read. IfSome (R.remaining input.old) (λ left. read.now ≡ [] → left ≡ [])) }
{
    read_full(input, space)
}

// The text that is printed for what an input holds. Where it could not be read there is none.
fn text_of<'a, R: Read>(input: &mut R, space: &'a mut [u8; CARD_MOST]) -> io::Result<&'a [u8]>
    ensures any { IfOk result (λ text. IsPrinted text.now) }
    ensures left { IfOk result (λ text. IfSome (R.remaining input.old) (λ left. text.now ≡ printed_text left)) }
{
    let mut bytes = [0u8; ROOM];
    let record = read_input(input, &mut bytes)?;
    Ok(text_for(record, space))
}

// Hands a text to standard output. It must be what is printed for some bytes.
fn print(rt: &impl Print, text: &[u8]) -> io::Result<()>
    requires { IsPrinted text.now }
{
    rt.write_all(text)
}

// Says on standard error what was not read, and why, and gives the status. Where that takes nothing either, the status alone says it.
pub fn unread(rt: &impl Eprint, what: &str, error: io::Error) -> ExitCode {
    let _ = eprintln!(rt; "card: {what} could not be read: {error}");
    ExitCode::FAILURE
}

// The same where standard output took not all of the text.
fn unwritten(rt: &impl Eprint, error: io::Error) -> ExitCode {
    let _ = eprintln!(rt; "card: standard output took not all of the text: {error}");
    ExitCode::FAILURE
}

// Prints the card of the record that an input holds, or its refusal; where a read or the write fails, the line, which calls the input by its
// name, and the status that says so.
pub fn print_card<R: Read>(
    rt: &(impl Print + Eprint),
    name: &str,
    input: &mut R,
) -> Result<(), ExitCode> {
    let mut space = [0u8; CARD_MOST];
    let text = text_of(input, &mut space).map_err(|error| unread(rt, name, error))?;
    print(rt, text).map_err(|error| unwritten(rt, error))
}

// The whole of the program `card`.
pub fn run(rt: &(impl Input + Print + Eprint)) -> ExitCode {
    print_card(rt, "standard input", &mut rt.reader())
        .err()
        .unwrap_or(ExitCode::SUCCESS)
}
