ghost use Rattle.std.specs.Prelude.{◌≤◌, length};

/// A list in the caller's buffer: the first entries of the buffer, as many as were appended. What lies beyond is left alone.
// No library call may ask for memory, so the buffer is lent, and the number of entries stands beside it.
#[derive(Drop)]
pub struct Roll<'a, T> {
    pub(crate) room: &'a mut [T],
    pub(crate) used: usize,
    ghost fits: { used ≤ length room.now },
}
