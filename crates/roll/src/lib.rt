//! Rolls: lists of entries of any kind in a buffer that the caller lends.
#![tactic(auto)]

mod filling;
mod lent;
mod reading;
mod refusal;
#[cfg(test)]
mod tests;

pub use lent::Roll;
pub use refusal::RollRefusal;
