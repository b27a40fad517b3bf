ghost use Rattle.std.specs.Prelude.{◌≡◌, ◌+◌, ◌^◌, ◌<◌, ◌++◌, [], codes, length, OnOk};
ghost use Rattle.lines.specs.Pages.{page_text};
ghost use Rattle.lines.specs.Text.{line_text, total_text};
ghost use Rattle.outlet.specs.Sending.{Passes, Sends};
ghost use Rattle.listing.specs.Texts.{lines_text};

use crate::watch::Watch;
use lines::{Line, Page, PageFull, TotalLine};
use outlet::send;
use std::io;
use std::io::Write;

/// Writes the page out, clears it, and tells that so many chains are written by now.
fn write_page<W: Write, T: Watch>(
    out: &mut W,
    watch: &mut T,
    page: &mut Page,
    chains: u64,
) -> io::Result<()>
    ensures sends { Sends (W.contents out.old) (W.contents out.new) result (page_text page.old) }
    ensures clear { OnOk result (page_text page.new ≡ []) }
{
    send(out, page.text())?;
    page.clear();
    watch.written(chains);
    Ok(())
}

/// Puts a line on the page, which is written out before where it has no room.
fn put_line<W: Write, T: Watch>(
    out: &mut W,
    watch: &mut T,
    page: &mut Page,
    line: Line,
) -> io::Result<()>
    requires { 0 < line.count }
    ensures { Passes (W.contents out.old) (W.contents out.new) result (page_text page.new) (page_text page.old ++ (line_text line.count line.set ++ codes "\n")) }
{
    match page.put(line) {
        Ok(()) => Ok(()),
        Err(PageFull) => {
            write_page(out, watch, page, line.count - 1)?;
            // A clear page has room for any line.
            let Ok(()) = page.put(line) else {
                unreachable!()
            };
            Ok(())
        }
    }
}

/// Puts a line for each of the sets, numbered from `first` on, on the page, which is written out whenever it has no room.
pub(crate) fn put_lines<W: Write, T: Watch>(
    out: &mut W,
    watch: &mut T,
    page: &mut Page,
    sets: &[u64],
    first: u64,
) -> io::Result<()>
    requires { (0 < first) × (first + length sets.now < 2 ^ 64) }
    ensures { Passes (W.contents out.old) (W.contents out.new) result (page_text page.new) (page_text page.old ++ lines_text first sets.now) }
{
    let mut count = first;
    for set in sets {
        put_line(out, watch, page, Line { count, set: *set })?;
        count += 1;
    }
    Ok(())
}

/// Writes the last page out, and the total behind it.
#[tactic(auto, using(outlet::proofs::Pieces::sends_after, outlet::proofs::Pieces::breaks_longer))]
pub(crate) fn write_end<W: Write, T: Watch>(
    out: &mut W,
    watch: &mut T,
    page: &mut Page,
    total: TotalLine,
) -> io::Result<()>
    ensures { Sends (W.contents out.old) (W.contents out.new) result (page_text page.old ++ (total_text total.count total.across total.along ++ codes "\n")) }
{
    write_page(out, watch, page, total.count)?;
    send(out, total.text().as_bytes())
}
