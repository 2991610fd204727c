// Numbers and lines as text, stored in lent bytes from a place on. Each function answers the place behind what it stored. What each asks is room,
// of the lent bytes and not of a type: callers lend any.
ghost use Rattle.std.specs.Prelude.{◌≡◌, ◌+◌, ◌*◌, ◌≤◌, ◌∷◌, length, drop};
ghost use Rattle.text_lines.specs.Text.{decimal, text_line, time_line};
ghost use Rattle.text_lines.specs.Stores.{Put};

// The digits of a number, to the end of ten bytes. Answers the place of the first. The digits are kept as they are, by hand and by casts:
// `write!` was tried and leaves its goal open, since it promises them only where it answers `Ok`, and no clause of std says that it does.
fn put_digits(bytes: &mut [u8; 10], n: u32) -> usize
    ensures { (result ≤ 9) × (drop result bytes.new ≡ decimal n) }
{
    let mut rest = n;
    let mut first = 9;
    while 10 <= rest {
        bytes[first] = b'0' + (rest % 10) as u8;
        rest /= 10;
        first -= 1;
    }
    bytes[first] = b'0' + rest as u8;
    first
}

// Bytes as they are. They must fit.
pub fn put_bytes(out: &mut [u8], at: usize, bytes: &[u8]) -> usize
    requires { at + length bytes.now ≤ length out.old }
    ensures { Put out.old at bytes.now (length bytes.now) result out.new }
{
    let end = at + bytes.len();
    out[at..end].copy_from_slice(bytes);
    end
}

// A blank, and the number. The digits are kept as they are, to the end of an array: see `put_digits`.
fn put_field(out: &mut [u8], at: usize, n: u32) -> usize
    requires { at + 11 ≤ length out.old }
    ensures { Put out.old at (32 ∷ decimal n) 11 result out.new }
{
    let mut digits = [0; 10];
    let first = put_digits(&mut digits, n);
    out[at] = b' ';
    put_bytes(out, at + 1, &digits[first..])
}

// A line: its head, a blank and the digits for each number, and a line feed. The longest line with so many numbers must fit into the bytes from
// `at` on.
pub fn put_line(out: &mut [u8], at: usize, head: &[u8], numbers: &[u32]) -> usize
    requires { at + length head.now + 11 * length numbers.now + 1 ≤ length out.old }
    ensures { Put out.old at (text_line head.now numbers.now) (length head.now + 11 * length numbers.now + 1) result out.new }
{
    let mut end = put_bytes(out, at, head);
    for n in numbers {
        end = put_field(out, end, *n);
    }
    out[end] = b'\n';
    end + 1
}

// A line with a time: its head, a blank, the minutes, a colon, the seconds in two digits, and a line feed. The longest such line must fit into
// the bytes from `at` on. The digits of the seconds are kept as they are: see `put_digits`.
pub fn put_time(out: &mut [u8], at: usize, head: &[u8], minutes: u32, seconds: u8) -> usize
    requires { at + length head.now + 15 ≤ length out.old }
    ensures { Put out.old at (time_line head.now minutes seconds) (length head.now + 15) result out.new }
{
    let first = put_bytes(out, at, head);
    let colon = put_field(out, first, minutes);
    put_bytes(
        out,
        colon,
        &[b':', b'0' + seconds / 10, b'0' + seconds % 10, b'\n'],
    )
}
