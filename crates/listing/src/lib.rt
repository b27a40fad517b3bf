//! The list of a survey, from the bytes that are read to the bytes that are written.
#![tactic(auto)]

mod chains;
mod pages;
mod program;
#[cfg(test)]
mod tests;
mod totals;
mod watch;

pub use program::{Answer, Failure, MOST_INPUT, list_survey};
pub use watch::{Unwatched, Watch};
