//! What whoever enters labels by hand can be refused.
#![tactic(auto)]

ghost use Rattle.entry.specs.Numbers.{entry_number, entry_text};
ghost use Rattle.std.specs.Prelude.{◌≡◌, Some};

use std::error::Error;
use std::fmt;

/// The most points that a graph can have; `most_points` in clauses.
pub const MOST_POINTS: u8 = 32;

/// Why an entry was refused.
#[derive(Clone, Copy, Debug, PartialEq, Eq)]
pub enum EntryRefusal {
    /// A point, the number of points, a class or a limit is out of range.
    OutOfRange,
    /// There is a label too many.
    TooManyLabels,
}

impl EntryRefusal {
    /// The number that this refusal is known by.
    // A number for output alone, by a method that reads better than `From` where it is called: the type is the enum.
    pub fn number(self) -> u8
        ensures { result ≡ entry_number self }
    {
        match self {
            EntryRefusal::OutOfRange => 6,
            EntryRefusal::TooManyLabels => 7,
        }
    }
}

/// The refusal in words.
impl fmt::Display for EntryRefusal {
    ghost output = { λ r. Some (entry_text r) };

    fn fmt<W: fmt::Write>(&self, f: &mut fmt::Formatter<W>) -> fmt::Result {
        match self {
            EntryRefusal::OutOfRange => write!(f, "out of range"),
            EntryRefusal::TooManyLabels => write!(f, "a label too many"),
        }
    }
}

impl Error for EntryRefusal {}

#[cfg(test)]
mod tests;
