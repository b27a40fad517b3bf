ghost use Rattle.walk.specs.States.{setting_of, state_of};
ghost use Rattle.listing.specs.Hands.{Begun};
ghost use Rattle.listing.specs.Batches.{WholeList};

use crate::chains::put_all;
use crate::pages::write_end;
use crate::watch::Watch;
use lines::{Page, TotalLine};
use matroid::Matroid;
use measure::{Measure, Shifts};
use std::io;
use std::io::Write;
use tie_rule::TieRule;
use walk::Walk;

/// Writes all sets that the walk hands out, and the total once it is finished.
pub(crate) fn write_list<W: Write, T: Watch, P: Matroid, R: TieRule>(
    out: &mut W,
    watch: &mut T,
    walk: &mut Walk<P, R, Shifts>,
) -> io::Result<()>
    requires { Begun (setting_of P.Matroid R.TieRule ⟦<Shifts as Measure>⟧ walk.old) (state_of walk.old) }
    ensures { WholeList (setting_of P.Matroid R.TieRule ⟦<Shifts as Measure>⟧ walk.old) (W.contents out.old) (W.contents out.new) result (state_of walk.old) }
{
    let mut page = Page::new();
    put_all(out, watch, &mut page, walk)?;
    let end = walk.look();
    let total = TotalLine {
        count: end.count,
        across: end.total.across,
        along: end.total.along,
    };
    write_end(out, watch, &mut page, total)
}
