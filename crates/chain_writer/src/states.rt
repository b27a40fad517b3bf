//! A writer and its states, and what it hands out.
ghost use Rattle.std.specs.Prelude.{◌≡◌, ◌≤◌, length as length_of};

use chain_lists::TotalKinds;

/// How far a file is written, in the state `S`. The buffer that it stands in is passed to each call.
// Beside `Writer`: the check follows no lent slice into a `Result` or a further struct, so a caller that has to know what its
// buffer holds keeps the buffer.
#[derive(Drop)]
pub struct Progress<S> {
    pub(crate) at: usize,
    pub(crate) count: u64,
    pub(crate) state: S,
}

/// A file that is being written into the caller's buffer, in the state `S`.
#[derive(Drop)]
pub struct Writer<'a, S> {
    // The caller lends the buffer, since nothing here may ask for memory.
    pub(crate) out: &'a mut [u8],
    pub(crate) progress: Progress<S>,
}

/// The labels of a file and its last set.
#[derive(Clone, Copy, Debug, PartialEq, Eq)]
pub struct Listing {
    pub(crate) n: u8,
    pub(crate) present: u64,
}

/// A file that takes exchanges, a total or the end.
pub type Open<'a> = Writer<'a, Listing>;

/// A file that takes only totals and the end.
pub type Totals<'a> = Writer<'a, TotalKinds>;

/// A file that is written: the buffer, and how many of its first bytes are the file.
#[derive(Drop)]
pub struct Written<'a> {
    pub out: &'a mut [u8],
    // The whole buffer goes back to the lender, so the file's length stands beside it.
    pub length: usize,
    ghost within: { length ≤ length_of out.now },
}

/// A buffer that no file was begun in, and why.
#[derive(Drop)]
pub struct Rejected<'a> {
    pub out: &'a mut [u8],
    pub why: WriterRefusal,
}

/// Why a writer refused.
#[derive(Clone, Copy, Debug, PartialEq, Eq)]
pub enum WriterRefusal {
    /// The buffer is too short for the shortest file with all totals.
    ShortBuffer,
    /// The buffer has no room for an exchange, all totals and the end.
    NoRoom,
    /// Too many labels, or a label of the start set above them.
    WrongHead,
    /// Not two labels, the higher one first, with exactly one of them in the present set.
    WrongExchange,
    /// There is a total of this kind already.
    SecondTotal,
}

impl<'a> From<Rejected<'a>> for WriterRefusal {
    ghost from_gives = { λ rejected why. why ≡ rejected.why };

    fn from(rejected: Rejected<'a>) -> WriterRefusal {
        rejected.why
    }
}
