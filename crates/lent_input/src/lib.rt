// An input, read into lent bytes: what the programs share, the test program too.
#![tactic(auto)]

ghost use Rattle.std.specs.Prelude.{◌≡◌, ◌≤◌, length, take, IfOk, IfSome};

use std::io;
use std::io::{Error, ErrorKind, Read};

// What of the input fits into the space: all of it, or as much as there is room for. A failed read, an interrupted one too, is no end of
// the input: the error goes up, and nothing is said of the bytes before it. Of some readers it is known what is left in them (`remaining`),
// and so promised what is read; not of standard input, for which the code is the same. The loop is kept as it is: std's `read_to_end` wants
// a `Vec`, for which there is no heap, and `read_exact` does not say how much it read of a shorter input.
pub fn read_full<'a, R: Read>(input: &mut R, space: &'a mut [u8]) -> io::Result<&'a [u8]>
    ensures fits { IfOk result (λ read. length read.now ≤ length space.old) }
    ensures front { IfOk result (λ read. IfSome (R.remaining input.old) (λ left. read.now ≡ take (length space.old) left)) }
{
    let mut n = 0;
    while n < space.len() {
        let more = input.read(&mut space[n..])?;
        if more == 0 {
            return Ok(&space[..n]);
        }
        n += more;
    }
    Ok(&space[..n])
}

// The whole of an input. One that takes up all of the space may go on behind it: that is an error, and so nothing is cut off.
pub fn read_whole<'a, R: Read>(input: &mut R, space: &'a mut [u8]) -> io::Result<&'a [u8]>
    ensures { IfOk result (λ read. IfSome (R.remaining input.old) (λ left. read.now ≡ left)) }
{
    let room = space.len();
    let read = read_full(input, space)?;
    if read.len() < room {
        Ok(read)
    } else {
        Err(Error::new(ErrorKind::FileTooLarge, "the input does not fit"))
    }
}
