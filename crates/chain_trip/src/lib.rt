//! A file with one of each kind of record but one, written and read back: what the contracts of writer and reader presuppose can
//! be met, and together they say that the list that was written is read.
#![tactic(auto)]

ghost use Rattle.chain_reader.specs.Reading.{Summarises};
ghost use Rattle.chain_trip.specs.Trip.{lawful_trip, left_by, trip_of};
ghost use Rattle.std.specs.Prelude.{◌≡◌, true, false, length, MatchOption};

use chain_lists::{Swap, Total};
use chain_reader::{Summary, read};
use chain_writer::put_head;

/// Puts a start set, an exchange and a lamp total as a file into the buffer, and reads it back; none, if the writer refused.
pub fn trip(buffer: &mut [u8], n: u8, start: u64, swap: Swap, word: u64) -> Option<Summary>
    ensures summary { MatchOption result
        (lawful_trip n start swap (length buffer.old) ≡ false)
        (λ s. (lawful_trip n start swap (length buffer.old) ≡ true) × Summarises s (trip_of n start swap word)) }
    ensures left { buffer.new ≡ left_by n start swap word buffer.old }
{
    let mut open = put_head(buffer, n, start).ok()?;
    open.put_exchange(buffer, swap).ok()?;
    let end = open
        .put_first_total(buffer, Total::Lamp(word))
        .put_end(buffer);
    read(&buffer[..end]).ok()
}
