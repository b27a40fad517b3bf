//! The record layer of chain files: it frames records, hands each out as a part of the file, and finds what is wrong with frames.
#![tactic(auto)]

mod framing;
mod reading;
mod records;
mod values;

pub use records::Records;
pub use values::{Record, RecordFault};
