/// The limit of a class, and its labels as a word, so that those of a set can be counted at once.
#[derive(Clone, Copy, Debug, PartialEq, Eq)]
pub(crate) struct Room {
    pub limit: u8,
    pub labels: u64,
}
