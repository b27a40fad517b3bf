//! The list layer of chain files: it hands out what each record says, and finds everything that is wrong with a file.
#![tactic(auto)]

mod bodies;
mod judging;
mod reading;
mod states;
mod summing;
#[cfg(test)]
mod tests;
mod values;

pub use states::ListReader;
pub use summing::read;
pub use values::{Entry, ListFault, Part, Summary};
