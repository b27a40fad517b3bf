//! Loops, parallel edges, classes that allow nothing, and no labels at all.
use crate::comparing::{Case, compare};
use crate::kinds::{classes_of, columns_of, graph_of};
use labels::LIMIT;
use layers::Dual;
use matroid::Matroid;
use measure::Shifts;
use partition::CLASSES;
use std::io::Write;
use tie_rule::{Closest, Furthest};

/// A matroid, and then its dual.
// The name goes beside the matroid: `Case` takes the one and `compare` the other.
fn write_both<W: Write, P: Matroid + Drop>(
    out: &mut W,
    kind: &'static str,
    matroid: P,
) -> anyhow::Result<()> {
    let case = Case {
        kind,
        rest: "bare",
        offered: 0,
    };
    let bare = compare(out, case, matroid, Closest, Shifts::new())?;
    let case = Case {
        rest: "dual",
        ..case
    };
    let _ = compare(out, case, Dual::new(bare), Furthest, Shifts::new())?;
    Ok(())
}

/// Writes the lines of all odd matroids.
pub fn write_odd<W: Write>(out: &mut W) -> anyhow::Result<()> {
    write_both(
        out,
        "loops and parallel edges",
        graph_of(
            4,
            &[
                (1, 1),
                (1, 2),
                (2, 1),
                (2, 3),
                (3, 3),
                (3, 4),
                (4, 1),
                (1, 4),
                (4, 4),
            ],
        )?,
    )?;
    write_both(out, "loops alone", graph_of(2, &[(1, 1), (2, 2), (1, 1)])?)?;
    write_both(
        out,
        "columns of 0 and twice 5",
        columns_of(&[0, 5, 5, 0, 3])?,
    )?;
    write_both(out, "limits of 0", classes_of([0; CLASSES], &[1, 2, 8])?)?;
    write_both(
        out,
        "limits of 0 and 48",
        classes_of([0, 48, 2, 0, 0, 0, 0, 1], &[2, 1, 2, 3, 3, 3, 8, 8])?,
    )?;
    write_both(out, "32 points, no labels", graph_of(32, &[])?)?;
    write_both(out, "no columns", columns_of(&[])?)?;
    write_both(out, "no classes", classes_of([LIMIT as u8; CLASSES], &[])?)
}
