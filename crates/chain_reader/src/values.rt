//! What a reader of lists hands out.
ghost use Rattle.chain_lists.specs.Faults.{fault_number};
ghost use Rattle.chain_reader.specs.Reading.{fault_of, spot_of};
ghost use Rattle.chain_reader.specs.Text.{fault_text};
ghost use Rattle.chain_reader.specs.declared.values.ListFault.TheVariants.{Record};
ghost use Rattle.std.specs.Prelude.{◌≡◌, Some};

use chain_lists::{Spot, Swap, Total};
use chain_records::{Record, RecordFault};
use std::error::Error;
use std::fmt;

/// What a record says.
#[derive(Clone, Copy, Debug, PartialEq, Eq)]
pub enum Entry {
    /// The labels 1 to this one, and the start set.
    Head(u8, u64),
    /// An exchange, and the set that it leads to.
    Exchange(Swap, u64),
    Total(Total),
    /// How many sets there are.
    End(u64),
}

/// A record, as a part of the file, and what it says.
#[derive(Clone, Copy, Debug)]
pub struct Part<'a> {
    pub record: Record<'a>,
    pub entry: Entry,
}

/// A list in short.
#[derive(Clone, Copy, Debug, PartialEq, Eq)]
pub struct Summary {
    /// The labels are 1 to this one.
    pub n: u8,
    pub start: u64,
    /// The last set.
    pub last: u64,
    /// How many sets there are.
    pub count: u64,
    /// The shift total, across and along.
    pub shift: Option<(i64, i64)>,
    /// The lamp total.
    pub lamp: Option<u64>,
}

/// What can be wrong with a file.
// A spot in each variant but `Record`: its fault is held whole and has one, so that a spot beside a kind would stand there twice.
#[derive(Clone, Copy, Debug, PartialEq, Eq)]
pub enum ListFault {
    /// A frame is at fault.
    Record(RecordFault),
    /// A record that is not due, a second total of a kind, bytes after the end, or no end.
    OutOfOrder(Spot),
    /// Too many labels, or a label of the start set above them.
    WrongHead(Spot),
    /// Not two labels, the higher one first, with exactly one of them in the present set.
    WrongExchange(Spot),
    /// Another count than that of the sets.
    WrongCount(Spot),
}

impl From<RecordFault> for ListFault {
    ghost from_gives = { λ e r. r ≡ Record e };

    fn from(e: RecordFault) -> ListFault {
        ListFault::Record(e)
    }
}

/// Its number, its byte, and how many exchanges stand before it.
impl fmt::Display for ListFault {
    ghost output = { λ e. Some (fault_text (fault_of e) (spot_of e)) };

    fn fmt<W: fmt::Write>(&self, f: &mut fmt::Formatter<W>) -> fmt::Result {
        let Spot { byte, before } = self.spot();
        write!(f, "refused {} byte {byte} after {before}", self.number())
    }
}

impl Error for ListFault {}

impl ListFault {
    /// The number that this fault is known by.
    // A number for output alone, by a method that reads better than `From` where it is called: the type is the enum.
    pub fn number(self) -> u8
        ensures { result ≡ fault_number (fault_of self) }
    {
        match self {
            ListFault::Record(e) => e.number(),
            ListFault::OutOfOrder(_) => 33,
            ListFault::WrongHead(_) => 34,
            ListFault::WrongExchange(_) => 35,
            ListFault::WrongCount(_) => 36,
        }
    }

    /// Where the record at fault begins, and how many exchanges stand before it.
    pub fn spot(self) -> Spot
        ensures { result ≡ spot_of self }
    {
        match self {
            ListFault::Record(e) => e.spot(),
            ListFault::OutOfOrder(spot)
            | ListFault::WrongHead(spot)
            | ListFault::WrongExchange(spot)
            | ListFault::WrongCount(spot) => spot,
        }
    }
}
