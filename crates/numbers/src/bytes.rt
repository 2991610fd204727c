// Big-endian numbers in a slice. A place past the end reads as 0, so reading needs no length. A number is read by
// `u16::from_be_bytes(bytes_at(s, at))` and written by `put(out, at, v.to_be_bytes())`, at any width.
ghost use Rattle.std.specs.Prelude.{◌≡◌, ◌+◌, ◌≤◌, length, drop};
ghost use Rattle.std.proofs.lemmas.List.Edits.{sets};
ghost use Rattle.numbers.specs.Bytes.{number, places};

// The byte at a place. The slice and the place are kept as they are, here and below: the slice from the place on would have to be cut by the
// caller, past its end too.
pub fn byte_at(s: &[u8], at: usize) -> u8
    ensures { result ≡ number s.now at 1 }
{
    s.get(at).copied().unwrap_or(0)
}

// The N bytes from `at` on. The slice, the place and the part that is copied are kept as they are: what is not there reads as 0.
pub fn bytes_at<const N: usize>(s: &[u8], at: usize) -> [u8; N]
    ensures { result ≡ places s.now at N }
{
    let there = part_from(s, at);
    let n = there.len().min(N);
    let mut bytes = [0u8; N];
    bytes[..n].copy_from_slice(&there[..n]);
    bytes
}

// The slice from `at` on; nothing where it ends before. The two are kept as they are: see `byte_at`.
pub fn part_from(s: &[u8], at: usize) -> &[u8]
    ensures { result.now ≡ drop at s.now }
{
    &s[at.min(s.len())..]
}

// The N bytes from `at` on must be there. The place and the room are kept as they are: of an array lent in its place
// (`first_chunk_mut`) the caller would have an `Option`, whose `None` never comes.
pub fn put<const N: usize>(out: &mut [u8], at: usize, bytes: [u8; N])
    requires { at + N ≤ length out.old }
    ensures { out.new ≡ sets out.old at bytes.entry }
{
    out[at..at + N].copy_from_slice(&bytes);
}
