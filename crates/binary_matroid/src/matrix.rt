use entries::Entries;

/// A matrix over two elements with a column of 64 places for each label, as they were added.
#[derive(Drop)]
pub struct Binary {
    pub(crate) table: Entries<u64>,
}
