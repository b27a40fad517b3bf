//! What a closed walk gives back.
use crate::rig::{TRIANGLE, begun};
use crate::shown::Shown;
use matroid::Matroid;
use measure::Measure;
use std::io::Write;
use walk::Parts;

/// Closes the triangle's walk after one step, and writes each part that comes back.
pub fn write_closed<W: Write>(out: &mut W) -> anyhow::Result<()> {
    let mut walk = begun(TRIANGLE)?;
    let _ = walk.advance();
    let Parts {
        matroid,
        rule,
        measure,
        view,
    } = walk.close();
    writeln!(out, "closed: {}", Shown(view))?;
    writeln!(
        out,
        "closed: {} points, {} labels, {} shifts, {rule:?}",
        matroid.points(),
        matroid.size(),
        measure.len()
    )?;
    // By label: the graph and the measure are asked by label, and the label is printed.
    for label in 1..=matroid.size() {
        if let Some((a, b)) = matroid.ends(label) {
            writeln!(
                out,
                "closed: label {label} joins {a} and {b}, shift {}",
                Shown(measure.worth(label))
            )?;
        }
    }
    Ok(())
}
