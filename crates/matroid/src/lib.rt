//! Matroids behind two questions, their size and whether a set of labels is independent;
//! and what can be found of any matroid by these two questions alone.
#![tactic(auto)]

mod bases;
mod interface;

pub use bases::{greedy, is_base, none_joins, rank, start};
pub use interface::Matroid;
