//! Tie rules: which of several labels that would all do is taken.
#![tactic(auto)]

mod closest;
mod furthest;
mod rule;
mod turnabout;

pub use closest::Closest;
pub use furthest::Furthest;
pub use rule::TieRule;
pub use turnabout::Turnabout;
