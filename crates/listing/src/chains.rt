ghost use Rattle.lines.specs.Pages.{page_text};
ghost use Rattle.walk.specs.States.{Keeps, setting_of, state_of};
ghost use Rattle.listing.specs.Hands.{Begun};
ghost use Rattle.listing.specs.Batches.{Batch, Chains};

use crate::pages::put_lines;
use crate::watch::Watch;
use lines::Page;
use matroid::Matroid;
use measure::Measure;
use roll::Roll;
use std::io;
use std::io::Write;
use tie_rule::TieRule;
use walk::{Stop, Walk};

/// How many sets are listed at a time.
const BATCH: usize = 1024;

/// Lists the next sets of the walk and puts them on the page; answers why the list stopped.
fn put_batch<W: Write, T: Watch, P: Matroid, R: TieRule, M: Measure>(
    out: &mut W,
    watch: &mut T,
    page: &mut Page,
    walk: &mut Walk<P, R, M>,
) -> io::Result<Stop>
    ensures keeps { Keeps walk.old walk.new }
    ensures batch { Batch (setting_of P.Matroid R.TieRule M.Measure walk.old) (W.contents out.old) (W.contents out.new) (page_text page.old) (page_text page.new) result (state_of walk.old) (state_of walk.new) }
{
    let first = walk.look().count + 1;
    // A fixed buffer, so that memory stays flat however long the list.
    let mut sets = [0u64; BATCH];
    let mut roll = Roll::new(&mut sets);
    let (_, stop) = walk.list(&mut roll);
    put_lines(out, watch, page, roll.entries(), first)?;
    Ok(stop)
}

/// Puts all sets that the walk hands out on the page, from its start until it is finished.
pub(crate) fn put_all<W: Write, T: Watch, P: Matroid, R: TieRule, M: Measure>(
    out: &mut W,
    watch: &mut T,
    page: &mut Page,
    walk: &mut Walk<P, R, M>,
) -> io::Result<()>
    requires { Begun (setting_of P.Matroid R.TieRule M.Measure walk.old) (state_of walk.old) }
    ensures keeps { Keeps walk.old walk.new }
    ensures chains { Chains (setting_of P.Matroid R.TieRule M.Measure walk.old) (W.contents out.old) (W.contents out.new) (page_text page.old) (page_text page.new) result (state_of walk.old) (state_of walk.new) }
{
    put_lines(out, watch, page, &[walk.look().present], 1)?;
    loop {
        match put_batch(out, watch, page, walk)? {
            Stop::Full => {}
            Stop::Finished => return Ok(()),
        }
    }
}
