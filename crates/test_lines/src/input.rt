// The words of a line, and what a word spells.
ghost use Rattle.std.specs.Prelude.{◌≡◌, ◌*◌, ◌≤◌, ◌==◌, length, position};
ghost use Rattle.std.specs.List.{before_first, after_first};
ghost use Rattle.std.specs.Str.{byte};

// The place of a line's first blank.
fn first_blank(line: &[u8]) -> Option<usize>
    ensures { result ≡ position (λ c. c == byte " ") line.now }
{
    line.iter().position(|c| *c == b' ')
}

// A line's first word, up to the first blank, and what follows the blank; nothing where the line is one word. The two are kept as they are, cut
// at the place: `split_once` is of `&str` alone.
pub fn split_word(line: &[u8]) -> (&[u8], &[u8])
    ensures word { result.0.now ≡ before_first (λ c. c == byte " ") line.now }
    ensures rest { result.1.now ≡ after_first (λ c. c == byte " ") line.now }
{
    match first_blank(line) {
        Some(end) => (&line[..end], &line[end + 1..]),
        None => (line, &[]),
    }
}

// A decimal digit's value; 0 for any other character. Digits are kept as they are, read by hand: see `hex_digit`.
fn decimal_digit(c: u8) -> u32
    ensures { result ≤ 9 }
{
    match c {
        b'0'..=b'9' => u32::from(c - b'0'),
        _ => 0,
    }
}

// The number that a word of decimal digits spells, at most the greatest u32; `greatest` where the type has no room for it.
// Digits are kept as they are, read by hand: see `hex_digit`.
pub fn number<T: TryFrom<u32> + Drop>(word: &[u8], greatest: T) -> T
where
    T::Error: Drop,
{
    let spelt = word.iter().fold(0, |n: u32, c| {
        n.saturating_mul(10).saturating_add(decimal_digit(*c))
    });
    T::try_from(spelt).unwrap_or(greatest)
}

// The same, at most the greatest u16.
pub fn number16(word: &[u8]) -> u16 {
    number(word, u16::MAX)
}

// A hexadecimal digit's value; 0 for any other character. It is kept as it is, read by hand: `to_digit` and `from_str_radix` read capitals too,
// and `parse` refuses a whole word for one other character; the test programs read both as 0.
fn hex_digit(c: u8) -> u8
    ensures { result ≤ 15 }
{
    match c {
        b'0'..=b'9' => c - b'0',
        b'a'..=b'f' => c - b'a' + 10,
        _ => 0,
    }
}

// Puts the bytes that a hexadecimal word spells at the start of out, as many as fit, and answers these. A lone `-` spells none. Digits are
// kept as they are: see `hex_digit`.
pub fn hex_bytes<'a>(word: &[u8], out: &'a mut [u8]) -> &'a [u8]
    ensures room { length result.now ≤ length out.old }
    ensures spelt { 2 * length result.now ≤ length word.now }
{
    let (pairs, _) = word.as_chunks::<2>();
    for (byte, [high, low]) in out.iter_mut().zip(pairs) {
        *byte = 16 * hex_digit(*high) + hex_digit(*low);
    }
    &out[..pairs.len().min(out.len())]
}
