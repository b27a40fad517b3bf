//! The calls of a writer.
ghost use Rattle.std.specs.Prelude.{◌≡◌, ◌+◌, ◌≤◌, length, take, Some, None, MatchResult};
ghost use Rattle.chain_lists.specs.Lists.{ChainList, Holds, begun, end_written, head_written, swap_written, total_written, with_swap, with_total};
ghost use Rattle.chain_writer.specs.Writing.{Holding, OpenHolds, Puts, TotalsHolds, begin_refusal, exchange_refusal, put_at, refusal_number, total_refusal};

use crate::filling::put_head;
use crate::states::{Open, Rejected, Totals, Writer, WriterRefusal, Written};
use chain_lists::{Swap, Total};

impl WriterRefusal {
    /// The number that this refusal is known by.
    // A number for output alone, by a method that reads better than `From` where it is called: the type is the enum.
    pub fn number(self) -> u8
        ensures { result ≡ refusal_number self }
    {
        match self {
            WriterRefusal::ShortBuffer => 12,
            WriterRefusal::NoRoom => 13,
            WriterRefusal::WrongHead => 21,
            WriterRefusal::WrongExchange => 22,
            WriterRefusal::SecondTotal => 23,
        }
    }
}

/// Begins a file in the buffer `out`: labels 1 to `n`, and the set `start`. A buffer that is refused comes back as it was.
pub fn begin<'a>(out: &'a mut [u8], n: u8, start: u64) -> Result<Open<'a>, Rejected<'a>>
    ensures cases { MatchResult result
        (λ w. (begin_refusal n start out.old ≡ None)
        × (w.out.now ≡ put_at 0 (head_written n start) out.old)
        × OpenHolds w.out.now w.progress (begun n start))
        (λ e. (begin_refusal n start out.old ≡ Some e.why) × (e.out.now ≡ out.old)) }
    ensures lender { MatchResult result
        (λ w. w.out.ghost_name ≡ out.entry.ghost_name)
        (λ e. e.out.ghost_name ≡ out.entry.ghost_name) }
{
    match put_head(out, n, start) {
        Ok(progress) => Ok(Writer { out, progress }),
        Err(why) => Err(Rejected { out, why }),
    }
}

impl<'a, S: Drop> Writer<'a, S> {
    /// Adds the end, and hands the buffer back with the file in it.
    pub fn end(self) -> Written<'a>
        ensures holds { (c : ChainList) → Holding self.entry.out.now self.entry.progress.at self.entry.progress.count c
            → Holds (take result.length result.out.now) c
            × (result.length ≤ length result.out.now)
            × (result.length ≡ self.entry.progress.at + length (end_written self.entry.progress.count))
            × (result.out.now ≡ put_at self.entry.progress.at (end_written self.entry.progress.count) self.entry.out.now) }
        ensures puts { Puts self.entry.progress.at (end_written self.entry.progress.count)
            self.entry.out.now result.out.now result.length }
        ensures lender { result.out.ghost_name ≡ self.entry.out.ghost_name }
    {
        let Writer { out, progress } = self;
        let length = progress.put_end(out);
        Written { out, length }
    }
}

impl<'a> Written<'a> {
    /// The bytes of the file.
    pub fn file(&self) -> &[u8]
        ensures { result.now ≡ take self.now.length self.now.out.now }
    {
        &self.out[..self.length]
    }
}

impl<'a> Open<'a> {
    /// Adds an exchange. If it is refused, nothing changes.
    pub fn exchange(&mut self, swap: Swap) -> Result<(), WriterRefusal>
        ensures cases { MatchResult result
            (λ _. (exchange_refusal self.old.out.now self.old.progress swap ≡ None)
            × (self.new.out.now ≡ put_at self.old.progress.at (swap_written swap) self.old.out.now))
            (λ e. (exchange_refusal self.old.out.now self.old.progress swap ≡ Some e)
            × (self.new.out.now ≡ self.old.out.now)
            × (self.new.progress ≡ self.old.progress)) }
        ensures labels { self.new.progress.state.n ≡ self.old.progress.state.n }
        ensures holds { (c : ChainList) → OpenHolds self.old.out.now self.old.progress c → MatchResult result
            (λ _. OpenHolds self.new.out.now self.new.progress (with_swap c swap))
            (λ _. OpenHolds self.new.out.now self.new.progress c) }
        ensures lender { self.new.out.ghost_name ≡ self.old.out.ghost_name }
    {
        self.progress.put_exchange(self.out, swap)
    }

    /// Adds the first total; no exchange can follow.
    pub fn total(self, total: Total) -> Totals<'a>
        ensures holds { (c : ChainList) → OpenHolds self.entry.out.now self.entry.progress c
            → TotalsHolds result.out.now result.progress (with_total c total)
            × (result.out.now ≡ put_at self.entry.progress.at (total_written total) self.entry.out.now) }
        ensures puts { Puts self.entry.progress.at (total_written total) self.entry.out.now result.out.now result.progress.at }
        ensures counted { result.progress.count ≡ self.entry.progress.count }
        ensures lender { result.out.ghost_name ≡ self.entry.out.ghost_name }
    {
        let Writer { out, progress } = self;
        let progress = progress.put_first_total(out, total);
        Writer { out, progress }
    }
}

impl<'a> Totals<'a> {
    /// Adds a total of another kind. If it is refused, nothing changes.
    pub fn total(&mut self, total: Total) -> Result<(), WriterRefusal>
        ensures cases { MatchResult result
            (λ _. (total_refusal self.old.progress total ≡ None)
            × Puts self.old.progress.at (total_written total) self.old.out.now self.new.out.now self.new.progress.at)
            (λ e. (total_refusal self.old.progress total ≡ Some e)
            × (self.new.out.now ≡ self.old.out.now)
            × (self.new.progress ≡ self.old.progress)) }
        ensures counted { self.new.progress.count ≡ self.old.progress.count }
        ensures holds { (c : ChainList) → TotalsHolds self.old.out.now self.old.progress c → MatchResult result
            (λ _. TotalsHolds self.new.out.now self.new.progress (with_total c total)
            × (self.new.out.now ≡ put_at self.old.progress.at (total_written total) self.old.out.now))
            (λ _. TotalsHolds self.new.out.now self.new.progress c) }
        ensures lender { self.new.out.ghost_name ≡ self.old.out.ghost_name }
    {
        self.progress.put_total(self.out, total)
    }
}
