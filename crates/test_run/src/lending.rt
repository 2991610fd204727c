// Spaces that are lent to calls that write.

// Lends the front of a space, as much as asked for or the whole of it, and answers what the call answers, and the space that it leaves.
pub fn lend<T: Copy, A, const N: usize, F: FnOnce(&mut [T]) -> A>(
    mut space: [T; N],
    room: usize,
    call: F,
) -> (A, [T; N])
    requires { F.IsAlwaysCallable call }
{
    let answer = call(&mut space[..room.min(N)]);
    (answer, space)
}
