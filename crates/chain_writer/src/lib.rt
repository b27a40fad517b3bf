//! The writer of chain files. It writes into the caller's buffer and holds back room for all totals and the end, so that these
//! always fit. A file is moved from state to state: an open file takes exchanges, and after the first total only totals follow.
#![tactic(auto)]

mod filling;
mod putting;
mod states;
#[cfg(test)]
mod tests;
mod writing;

pub use filling::put_head;
pub use states::{Listing, Open, Progress, Rejected, Totals, Writer, WriterRefusal, Written};
pub use writing::begin;
