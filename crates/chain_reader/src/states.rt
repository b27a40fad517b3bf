//! The state of a reader of lists.
use chain_lists::TotalKinds;
use chain_records::Records;

/// What was read so far of a list.
#[derive(Clone, Copy, Debug, PartialEq, Eq)]
pub struct Progress {
    pub(crate) n: u8,
    pub(crate) present: u64,
    pub(crate) totals: TotalKinds,
}

/// How far a reader is.
#[derive(Clone, Copy, Debug, PartialEq, Eq)]
pub enum Stage {
    Nothing,
    SoFar(Progress),
    Ended,
}

/// A reader of the list that a file holds, record by record.
#[derive(Drop)]
pub struct ListReader<'a> {
    pub(crate) records: Records<'a>,
    pub(crate) stage: Stage,
}
