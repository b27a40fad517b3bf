//! What a record says at a stage, or what is wrong with it.
ghost use Rattle.std.specs.Prelude.{◌≡◌, List, ℕ};
ghost use Rattle.chain_lists.specs.Faults.{Beginning, nothing, so_far};
ghost use Rattle.chain_lists.specs.Lists.{ChainList, Fitting, framed, total_kind, total_written};
ghost use Rattle.chain_lists.specs.declared.Kind.TheVariants.{End, Exchange, Head};
ghost use Rattle.chain_reader.specs.Reading.{Judged, Known};
ghost use Rattle.chain_reader.specs.declared.states.Stage.TheVariants.{SoFar};

use crate::bodies::{lamp_in, shift_in, word_at};
use crate::states::{Progress, Stage};
use crate::values::{Entry, ListFault};
use chain_lists::{Kind, Spot, Swap, Total, TotalKinds, is_lawful_head};
use chain_records::Record;

/// What a record says, and the stage after it.
#[derive(Clone, Copy, Debug, PartialEq, Eq)]
pub(crate) struct Step {
    pub entry: Entry,
    pub stage: Stage,
}

fn head(found: Record<'_>) -> Result<Step, ListFault>
    requires { found.kind ≡ Head }
    ensures { Judged nothing Head found.entry.body.now found.entry.spot result }
{
    let n = found.body[0];
    let start = word_at(found.body, 1);
    if !is_lawful_head(n, start) {
        return Err(ListFault::WrongHead(found.spot));
    }
    Ok(Step {
        entry: Entry::Head(n, start),
        stage: Stage::SoFar(Progress {
            n,
            present: start,
            totals: TotalKinds::EMPTY,
        }),
    })
}

impl Progress {
    // `Known` is a premise here and below: which beginning was read is no value of the code, so that it stands in no field.
    fn exchange(self, found: Record<'_>) -> Result<Step, ListFault>
        requires { found.kind ≡ Exchange }
        ensures { (c : ChainList) → Known (so_far c) (SoFar self) found.entry.spot
            → Judged (so_far c) Exchange found.entry.body.now found.entry.spot result }
    {
        if !self.totals.is_empty() {
            return Err(ListFault::OutOfOrder(found.spot));
        }
        let swap = Swap {
            high: found.body[0],
            low: found.body[1],
        };
        if !swap.is_lawful(self.n, self.present) {
            return Err(ListFault::WrongExchange(found.spot));
        }
        let present = swap.after(self.present);
        Ok(Step {
            entry: Entry::Exchange(swap, present),
            stage: Stage::SoFar(Progress { present, ..self }),
        })
    }

    fn total(self, total: Total, spot: Spot) -> Result<Step, ListFault>
        ensures { (c : ChainList) (body : List ℕ) → Known (so_far c) (SoFar self) spot
            → Fitting total → framed (total_kind total) body ≡ total_written total
            → Judged (so_far c) (total_kind total) body spot result }
    {
        if self.totals.has(total) {
            return Err(ListFault::OutOfOrder(spot));
        }
        Ok(Step {
            entry: Entry::Total(total),
            stage: Stage::SoFar(Progress {
                totals: self.totals.with(total),
                ..self
            }),
        })
    }
}

fn end(found: Record<'_>) -> Result<Step, ListFault>
    requires { found.kind ≡ End }
    ensures { (c : ChainList) (p : Progress) → Known (so_far c) (SoFar p) found.entry.spot
        → Judged (so_far c) End found.entry.body.now found.entry.spot result }
{
    let count = word_at(found.body, 0);
    if count != found.spot.before + 1 {
        return Err(ListFault::WrongCount(found.spot));
    }
    Ok(Step {
        entry: Entry::End(count),
        stage: Stage::Ended,
    })
}

/// What a record says at this stage.
pub(crate) fn judge(stage: Stage, found: Record<'_>) -> Result<Step, ListFault>
    ensures { (b : Beginning) → Known b stage found.entry.spot → Judged b found.entry.kind found.entry.body.now found.entry.spot result }
{
    match (stage, found.kind) {
        (Stage::Nothing, Kind::Head) => head(found),
        (Stage::SoFar(p), Kind::Exchange) => p.exchange(found),
        (Stage::SoFar(p), Kind::ShiftTotal) => p.total(shift_in(found), found.spot),
        (Stage::SoFar(p), Kind::LampTotal) => p.total(lamp_in(found), found.spot),
        (Stage::SoFar(_), Kind::End) => end(found),
        _ => Err(ListFault::OutOfOrder(found.spot)),
    }
}
