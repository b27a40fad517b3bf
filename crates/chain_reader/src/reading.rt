//! The calls of a reader of lists.
ghost use Rattle.chain_lists.specs.Faults.{Beginning, Refused, bytes_of, nothing};
ghost use Rattle.chain_lists.specs.Lists.{framed};
ghost use Rattle.chain_reader.specs.Reading.{Finished, HasRead, Told, end_of, entry_written, extended, fault_of, file_read, spot_of, unread};
ghost use Rattle.std.specs.Prelude.{◌≡◌, ◌++◌, ◌<◌, length, IfOk, IfSome, MatchOption, MatchResult};

use crate::judging::judge;
use crate::states::{ListReader, Stage};
use crate::values::{ListFault, Part};
use chain_records::Records;

impl<'a> ListReader<'a> {
    /// A reader of `file`, at its first record.
    pub fn new(file: &'a [u8]) -> ListReader<'a>
        ensures file { file_read result ≡ file.now }
        ensures begins { HasRead result nothing }
    {
        ListReader {
            records: Records::new(file),
            stage: Stage::Nothing,
        }
    }

    /// The next record and what it says; none, if the file ended and was lawful. A reader that finds a fault stays where it is.
    // No `Iterator`: a fault is answered as often as it is asked for, so that one over results would not end there.
    pub fn next(&mut self) -> Result<Option<Part<'a>>, ListFault>
        ensures file { file_read self.new ≡ file_read self.old }
        ensures reads { (b : Beginning) → HasRead self.old b → MatchResult result
            (λ o. MatchOption o
            (Finished (file_read self.old) b × HasRead self.new b)
            (λ x. HasRead self.new (extended b x.entry)
            × Told b x.entry
            × (x.record.bytes.now ≡ entry_written x.entry)
            × (x.record.bytes.now ≡ framed x.record.kind x.record.body.now)
            × (bytes_of (extended b x.entry) ≡ bytes_of b ++ x.record.bytes.now)
            × (x.record.spot ≡ end_of b)))
            (λ e. (r : Refused (file_read self.old) (fault_of e) (spot_of e)) × (r.beginning ≡ b) × HasRead self.new b) }
        ensures shorter { IfOk result (λ o. IfSome o (λ _. length (unread self.new) < length (unread self.old))) }
    {
        if let Stage::Ended = self.stage {
            return if self.records.is_empty() {
                Ok(None)
            } else {
                Err(ListFault::OutOfOrder(self.records.spot()))
            };
        }
        let mut ahead = self.records;
        let record = ahead.next()?.ok_or(ListFault::OutOfOrder(ahead.spot()))?;
        let step = judge(self.stage, record)?;
        self.records = ahead;
        self.stage = step.stage;
        Ok(Some(Part {
            record,
            entry: step.entry,
        }))
    }
}
