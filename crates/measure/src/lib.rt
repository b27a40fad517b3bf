//! Measures: what labels are worth. Shifts are one such measure, and words of flipped places another.
#![tactic(auto)]

mod flipping;
mod group;
mod interface;
mod shifting;
mod table;
mod value;
mod worth;

pub use group::Group;
pub use interface::Measure;
pub use table::{Shifts, Words, Worths};
pub use value::{Shift, Word};

#[cfg(test)]
mod tests;
