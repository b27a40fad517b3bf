//! The calls of a reader of records.
ghost use Rattle.std.specs.Prelude.{◌≡◌, ◌+◌, ◌^◌, ◌<◌, ◌≤◌, [], ◌++◌, length, Some, MatchOption, MatchResult, ◌==◌, ◌≢◌};
ghost use Rattle.chain_lists.specs.Faults.{Beginning, record_fault};
ghost use Rattle.chain_lists.specs.Lists.{framed, kind_length};
ghost use Rattle.chain_records.specs.Records.{behind, exchanges_in, fault_of, file_of, left_of, place_of, spot_of};

use crate::framing::{LENGTH_SIZE, is_complete, kind_of};
use crate::records::Records;
use crate::values::{Record, RecordFault};
use chain_lists::{FRAME, Kind, Spot};

// How many exchanges a record of this kind is.
fn exchanges_of(kind: Kind) -> u64
    ensures { result ≡ exchanges_in kind }
{
    match kind {
        Kind::Exchange => 1,
        Kind::Head | Kind::End | Kind::ShiftTotal | Kind::LampTotal => 0,
    }
}

impl<'a> Records<'a> {
    /// The records of `file`, from the first on.
    pub fn new(file: &'a [u8]) -> Records<'a>
        ensures { (file_of result ≡ file.now) × (place_of result ≡ record { byte = 0; before = 0 }) }
    {
        Records {
            file,
            at: 0,
            exchanges: 0,
        }
    }

    /// Where the next record begins, and how many exchanges stand before it.
    pub fn spot(&self) -> Spot
        ensures { result ≡ place_of self.now }
    {
        Spot {
            byte: self.at,
            before: self.exchanges,
        }
    }

    /// Whether no byte is left.
    pub fn is_empty(&self) -> bool
        ensures { result ≡ (length (left_of self.now) == 0) }
    {
        self.at == self.file.len()
    }

    // Goes behind a record of `size` bytes.
    fn pass(&mut self, kind: Kind, size: usize)
        requires { (size ≡ 4 + kind_length kind) × (size ≤ length (left_of self.old)) }
        ensures file { file_of self.new ≡ file_of self.old }
        ensures place { place_of self.new ≡ behind (place_of self.old) kind }
    {
        self.at += size;
        self.exchanges += exchanges_of(kind);
    }

    /// The next record, or none if no byte is left. A reader that finds a fault stays where it is.
    // No `Iterator`: a fault is answered as often as it is asked for, so that one over results would not end there.
    pub fn next(&mut self) -> Result<Option<Record<'a>>, RecordFault>
        ensures file { file_of self.new ≡ file_of self.old }
        ensures cases { MatchResult result
            (λ o. MatchOption o
            ((left_of self.old ≡ []) × (place_of self.new ≡ place_of self.old))
            (λ x. (x.spot ≡ place_of self.old)
            × (x.spot.before + 2 < 2 ^ 64)
            × (x.bytes.now ≡ framed x.kind x.body.now)
            × (length x.body.now + 2 ≡ kind_length x.kind)
            × (left_of self.old ≡ x.bytes.now ++ left_of self.new)
            × (place_of self.new ≡ behind (place_of self.old) x.kind)))
            (λ e. (spot_of e ≡ place_of self.old)
            × (left_of self.old ≢ [])
            × ((b : Beginning) → record_fault b (left_of self.old) ≡ Some (fault_of e))
            × (place_of self.new ≡ place_of self.old)) }
    {
        if self.is_empty() {
            return Ok(None);
        }
        let rest = &self.file[self.at..];
        let spot = self.spot();
        if !is_complete(rest) {
            return Err(RecordFault::CutOff(spot));
        }
        let kind = kind_of(rest).ok_or(RecordFault::Misshapen(spot))?;
        let size = LENGTH_SIZE + kind.length() as usize;
        self.pass(kind, size);
        Ok(Some(Record {
            kind,
            bytes: &rest[..size],
            body: &rest[FRAME..size],
            spot,
        }))
    }
}
