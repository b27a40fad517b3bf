//! A whole file in short.
ghost use Rattle.chain_laws.specs.Laws.{LawOfFiles};
ghost use Rattle.chain_lists.specs.Faults.{Beginning, Refused};
ghost use Rattle.chain_lists.specs.Lists.{ChainList, Holds};
ghost use Rattle.chain_reader.specs.Reading.{Summarises, SummaryAfter, Told, extended, fault_of, spot_of};
ghost use Rattle.std.specs.Result.{MatchResult};

use crate::states::ListReader;
use crate::values::{Entry, ListFault, Summary};
use chain_lists::Total;

const BLANK: Summary = Summary {
    n: 0,
    start: 0,
    last: 0,
    count: 0,
    shift: None,
    lamp: None,
};

// The summary with what a record says.
fn with(s: Summary, entry: Entry) -> Summary
    ensures { (b : Beginning) → SummaryAfter b s → Told b entry → SummaryAfter (extended b entry) result }
{
    match entry {
        Entry::Head(n, start) => Summary {
            n,
            start,
            last: start,
            ..s
        },
        Entry::Exchange(_, set) => Summary { last: set, ..s },
        Entry::Total(Total::Shift(across, along)) => Summary {
            shift: Some((across, along)),
            ..s
        },
        Entry::Total(Total::Lamp(word)) => Summary {
            lamp: Some(word),
            ..s
        },
        Entry::End(count) => Summary { count, ..s },
    }
}

/// Reads a whole file: the list that it holds in short, or the first thing that is wrong with it. What was written by a writer is
/// read as the list that was written.
pub fn read(file: &[u8]) -> Result<Summary, ListFault>
    ensures exactly { MatchResult result
        (λ s. (c : ChainList) × Holds file.now c × Summarises s c)
        (λ e. Refused file.now (fault_of e) (spot_of e)) }
    ensures reads_back { (c : ChainList) → Holds file.now c → MatchResult result (λ s. Summarises s c) (λ _. ⊥) }
    ensures law { LawOfFiles }
{
    let mut reader = ListReader::new(file);
    let mut summary = BLANK;
    while let Some(part) = reader.next()? {
        summary = with(summary, part.entry);
    }
    Ok(summary)
}
