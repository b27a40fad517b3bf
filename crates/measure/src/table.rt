use crate::value::{Shift, Word};
use entries::Entries;

/// What the labels 1, 2, .. are worth in turn, as their values were added.
#[derive(Drop)]
pub struct Worths<V> {
    pub(crate) table: Entries<V>,
}

/// A shift for each of the labels 1, 2, .. in turn, as they were added.
pub type Shifts = Worths<Shift>;

/// A word for each of the labels 1, 2, .. in turn, as they were added.
pub type Words = Worths<Word>;
