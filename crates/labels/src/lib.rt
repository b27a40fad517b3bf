//! Sets of labels as 64-bit words: what holds of them, and the one limit on labels.
#![tactic(auto)]

/// The highest label that there can be, and so the most labels of a matroid; `limit` in clauses.
pub const LIMIT: usize = 48;
