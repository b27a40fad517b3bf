//! The place of a reader in a file.
ghost use Rattle.std.specs.Prelude.{◌≤◌, length};

/// A reader of the records of a file, one after the other.
#[derive(Clone, Copy, Debug)]
pub struct Records<'a> {
    // The whole file and a place, not the rest alone: a fault names its byte.
    pub(crate) file: &'a [u8],
    pub(crate) at: usize,
    pub(crate) exchanges: u64,
    ghost within: { at ≤ length file.now },
    ghost few: { exchanges ≤ at },
}
