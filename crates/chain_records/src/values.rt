//! What a reader of records hands out.
ghost use Rattle.chain_lists.specs.Faults.{fault_number};
ghost use Rattle.chain_lists.specs.Lists.{kind_length};
ghost use Rattle.chain_records.specs.Records.{fault_of, spot_of};
ghost use Rattle.std.specs.Prelude.{◌≡◌, ◌+◌, ◌^◌, ◌<◌, length};

use chain_lists::{Kind, Spot};

/// A record, as a part of the file.
#[derive(Clone, Copy, Debug)]
pub struct Record<'a> {
    pub kind: Kind,
    /// All of its bytes.
    pub bytes: &'a [u8],
    /// Those after the length and the kind.
    pub body: &'a [u8],
    pub spot: Spot,
    ghost shaped: { length body.now + 2 ≡ kind_length kind },
    ghost few: { spot.before + 2 < 2 ^ 64 },
}

/// What can be wrong with the frame of a record.
// A spot in each variant: a struct of kind and spot is a type more, and a match on what is wrong would open it first.
#[derive(Clone, Copy, Debug, PartialEq, Eq)]
pub enum RecordFault {
    /// The length is cut off, or fewer bytes are left than it states.
    CutOff(Spot),
    /// The kind is unknown, or the length is not that of its kind.
    Misshapen(Spot),
}

impl RecordFault {
    /// The number that this fault is known by.
    // A number for output alone, by a method that reads better than `From` where it is called: the type is the enum.
    pub fn number(self) -> u8
        ensures { result ≡ fault_number (fault_of self) }
    {
        match self {
            RecordFault::CutOff(_) => 31,
            RecordFault::Misshapen(_) => 32,
        }
    }

    /// Where the record at fault begins, and how many exchanges stand before it.
    pub fn spot(self) -> Spot
        ensures { result ≡ spot_of self }
    {
        match self {
            RecordFault::CutOff(spot) | RecordFault::Misshapen(spot) => spot,
        }
    }
}
