//! What is entered for the labels 1, 2, .. in turn: one table for values of any type.
#![tactic(auto)]

mod entering;
mod reading;
mod table;

pub use table::Entries;
