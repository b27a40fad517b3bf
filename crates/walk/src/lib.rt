//! The walk over all bases of a matroid, one exchange at a time.
#![tactic(auto)]

mod calls;
mod candidates;
mod lists;
mod parts;
mod roll_entry;
mod state;

pub use parts::Parts;
pub use roll_entry::Entry;
pub use state::Walk;
pub use walk_laws::{Exchange, Stop, View};
