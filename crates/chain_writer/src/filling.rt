//! The records of a file, put one after the other into a buffer that stays with the caller.
ghost use Rattle.std.specs.Prelude.{◌≡◌, ◌+◌, ◌≤◌, length, take, Some, None, MatchResult};
ghost use Rattle.chain_lists.specs.Lists.{ChainList, Holds, begun, end_written, head_written, swap_written, total_written, with_swap, with_total};
ghost use Rattle.chain_writer.specs.Writing.{Holding, OpenHolds, Puts, TotalsHolds, begin_refusal, exchange_refusal, put_at, total_refusal};

use crate::putting::{has_room, head_body, put_record, put_total_record};
use crate::states::{Listing, Progress, WriterRefusal};
use chain_lists::{Kind, Swap, Total, TotalKinds, is_lawful_head};

const HEAD_SIZE: usize = 15;

const SWAP_SIZE: usize = 8;

// Both totals and the end.
const HELD_BACK: usize = 50;

/// Puts the head of a file first in the buffer: labels 1 to `n`, and the set `start`. If it is refused, nothing changes.
// Two numbers, as in `is_lawful_head`: a struct of both would be made only to be taken apart.
pub fn put_head(out: &mut [u8], n: u8, start: u64) -> Result<Progress<Listing>, WriterRefusal>
    ensures { MatchResult result
        (λ p. (begin_refusal n start out.old ≡ None)
        × (out.new ≡ put_at 0 (head_written n start) out.old)
        × OpenHolds out.new p (begun n start))
        (λ e. (begin_refusal n start out.old ≡ Some e) × (out.new ≡ out.old)) }
{
    if !is_lawful_head(n, start) {
        return Err(WriterRefusal::WrongHead);
    }
    if !has_room(out.len(), 0, HEAD_SIZE + HELD_BACK) {
        return Err(WriterRefusal::ShortBuffer);
    }
    Ok(Progress {
        at: put_record(out, 0, Kind::Head, &head_body(n, start)),
        count: 1,
        state: Listing { n, present: start },
    })
}

impl Progress<Listing> {
    /// Puts an exchange behind what is written. If it is refused, nothing changes.
    pub fn put_exchange(&mut self, out: &mut [u8], swap: Swap) -> Result<(), WriterRefusal>
        ensures cases { MatchResult result
            (λ _. (exchange_refusal out.old self.old swap ≡ None)
            × (out.new ≡ put_at self.old.at (swap_written swap) out.old))
            (λ e. (exchange_refusal out.old self.old swap ≡ Some e) × (out.new ≡ out.old) × (self.new ≡ self.old)) }
        ensures labels { self.new.state.n ≡ self.old.state.n }
        ensures holds { (c : ChainList) → OpenHolds out.old self.old c
            → MatchResult result (λ _. OpenHolds out.new self.new (with_swap c swap)) (λ _. OpenHolds out.new self.new c) }
    {
        if !swap.is_lawful(self.state.n, self.state.present) {
            return Err(WriterRefusal::WrongExchange);
        }
        if !has_room(out.len(), self.at, SWAP_SIZE + HELD_BACK) {
            return Err(WriterRefusal::NoRoom);
        }
        self.at = put_record(out, self.at, Kind::Exchange, &[swap.high, swap.low]);
        self.state.present = swap.after(self.state.present);
        self.count = self.count.wrapping_add(1);
        Ok(())
    }

    /// Puts the first total behind what is written; no exchange can follow.
    pub fn put_first_total(self, out: &mut [u8], total: Total) -> Progress<TotalKinds>
        ensures holds { (c : ChainList) → OpenHolds out.old self c
            → TotalsHolds out.new result (with_total c total)
            × (out.new ≡ put_at self.at (total_written total) out.old) }
        ensures puts { Puts self.at (total_written total) out.old out.new result.at }
        ensures counted { result.count ≡ self.count }
    {
        Progress {
            at: put_total_record(out, self.at, total),
            count: self.count,
            state: TotalKinds::EMPTY.with(total),
        }
    }
}

impl Progress<TotalKinds> {
    /// Puts a total of another kind behind what is written. If it is refused, nothing changes.
    pub fn put_total(&mut self, out: &mut [u8], total: Total) -> Result<(), WriterRefusal>
        ensures cases { MatchResult result
            (λ _. (total_refusal self.old total ≡ None)
            × Puts self.old.at (total_written total) out.old out.new self.new.at)
            (λ e. (total_refusal self.old total ≡ Some e) × (out.new ≡ out.old) × (self.new ≡ self.old)) }
        ensures counted { self.new.count ≡ self.old.count }
        ensures holds { (c : ChainList) → TotalsHolds out.old self.old c → MatchResult result
            (λ _. TotalsHolds out.new self.new (with_total c total)
            × (out.new ≡ put_at self.old.at (total_written total) out.old))
            (λ _. TotalsHolds out.new self.new c) }
    {
        if self.state.has(total) {
            return Err(WriterRefusal::SecondTotal);
        }
        self.at = put_total_record(out, self.at, total);
        self.state = self.state.with(total);
        Ok(())
    }
}

// What a file holds so far is a premise of its calls: docs/DECISIONS.md, "A writer holds its buffer".
impl<S: Drop> Progress<S> {
    /// Puts the end behind what is written, and answers how long the file is.
    pub fn put_end(self, out: &mut [u8]) -> usize
        ensures holds { (c : ChainList) → Holding out.old self.at self.count c
            → Holds (take result out.new) c
            × (result ≡ self.at + length (end_written self.count))
            × (out.new ≡ put_at self.at (end_written self.count) out.old) }
        ensures within { result ≤ length out.new }
        ensures puts { Puts self.at (end_written self.count) out.old out.new result }
    {
        let end = put_record(out, self.at, Kind::End, &self.count.to_le_bytes());
        end.min(out.len())
    }
}
