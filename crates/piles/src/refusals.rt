//! What is refused when labels are entered by hand.
use crate::kinds::{classes_of, columns_of, graph_of};
use crate::measuring::{shifts_of, words_of};
use binary_matroid::Binary;
use entry::{EntryRefusal, MOST_POINTS};
use labels::LIMIT;
use measure::Words;
use partition::{CLASSES, Partition};
use std::io::Write;

/// Enters values into a table, label by label, and writes the line of each.
fn write_entries<W: Write, T: Drop, V: Copy, F: Fn(&mut T, V) -> Result<(), EntryRefusal>>(
    out: &mut W,
    mut table: T,
    entries: &[(&'static str, V)],
    add: F,
) -> anyhow::Result<()>
    requires { F.IsAlwaysCallable add }
{
    for (what, value) in entries {
        match add(&mut table, *value) {
            Ok(()) => writeln!(out, "{what}: entered")?,
            Err(refusal) => writeln!(out, "{what}: refused {}", refusal.number())?,
        }
    }
    Ok(())
}

/// Edges, where there are as many as there can be but one; some with points that are out of range.
fn write_graphic<W: Write>(out: &mut W) -> anyhow::Result<()> {
    let graphic = graph_of(MOST_POINTS, &[(1, 2); LIMIT - 1])?;
    let entries = [
        ("graphic, 48th label, point 33", (1, MOST_POINTS + 1)),
        ("graphic, 48th label", (MOST_POINTS, MOST_POINTS)),
        ("graphic, 49th label", (1, 2)),
        ("graphic, 49th label, point 33", (MOST_POINTS + 1, 2)),
        ("graphic, 49th label, point 0", (2, 0)),
    ];
    write_entries(out, graphic, &entries, |graphic, (a, b)| graphic.add(a, b))
}

/// Labels in classes, likewise.
fn write_partition<W: Write>(out: &mut W) -> anyhow::Result<()> {
    let partition = classes_of([LIMIT as u8; CLASSES], &[1; LIMIT - 1])?;
    let entries = [
        ("partition, 48th label, class 9", 9),
        ("partition, 48th label", 8),
        ("partition, 49th label", 8),
        ("partition, 49th label, class 9", 9),
        ("partition, 49th label, class 0", 0),
    ];
    write_entries(out, partition, &entries, Partition::add)
}

/// Columns.
// Not one with `write_shifts` and `write_words`: what they share is `write_entries`; table, values and names are left.
fn write_binary<W: Write>(out: &mut W) -> anyhow::Result<()> {
    let binary = columns_of(&[1; LIMIT - 1])?;
    let entries = [("binary, 48th label", u64::MAX), ("binary, 49th label", 0)];
    write_entries(out, binary, &entries, Binary::add)
}

/// Shifts.
fn write_shifts<W: Write>(out: &mut W) -> anyhow::Result<()> {
    let shifts = shifts_of(&[(1, -1); LIMIT - 1])?;
    let entries = [
        ("shifts, 48th label", (i64::MIN, i64::MAX)),
        ("shifts, 49th label", (0, 0)),
    ];
    write_entries(
        out,
        shifts,
        &entries,
        |shifts, (across, along)| shifts.add(across, along),
    )
}

/// Words.
fn write_words<W: Write>(out: &mut W) -> anyhow::Result<()> {
    let words = words_of(&[1; LIMIT - 1])?;
    let entries = [("words, 48th label", u64::MAX), ("words, 49th label", 0)];
    write_entries(out, words, &entries, Words::add)
}

/// Writes the lines of all entries.
pub fn write_refusals<W: Write>(out: &mut W) -> anyhow::Result<()> {
    write_graphic(out)?;
    write_binary(out)?;
    write_partition(out)?;
    write_shifts(out)?;
    write_words(out)
}
