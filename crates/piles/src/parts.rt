//! Walks with only some labels active, and offered sets with labels that there are not.
use crate::comparing::{Case, compare, compare_part};
use crate::kinds::{four_classes, nine_columns, wheel};
use layers::{Dual, Truncation};
use matroid::Matroid;
use measure::Shifts;
use std::io::Write;
use tie_rule::{Closest, Furthest, Turnabout};

/// The opened sets, and what they are called.
const OPENED: [(&'static str, u64); 5] = [
    ("none active", 0),
    ("1 to 4 active", 0b1111),
    ("even active", 0b1010_1010),
    ("8 active", 0b1000_0000),
    ("only above active", !0b1_1111_1111),
];

/// One matroid with each of the opened sets, which it is walked on with in turn.
// The name goes beside the matroid, here and below: `Case` takes the one and `compare_part` the other.
fn write_opened<W: Write, P: Matroid + Drop>(
    out: &mut W,
    kind: &'static str,
    offered: u64,
    matroid: P,
) -> anyhow::Result<()> {
    let mut bare = matroid;
    for (rest, opened) in &OPENED {
        let case = Case {
            kind,
            rest: *rest,
            offered,
        };
        bare = compare_part(out, case, *opened, bare, Turnabout::new(), Shifts::new())?;
    }
    Ok(())
}

/// One matroid with offered sets that differ only above its labels.
fn write_offered<W: Write, P: Matroid + Drop>(
    out: &mut W,
    kind: &'static str,
    matroid: P,
) -> anyhow::Result<()> {
    let case = Case {
        kind,
        rest: "offered 1 3 5",
        offered: 0b10101,
    };
    let bare = compare_part(out, case, 0b100_1111, matroid, Closest, Shifts::new())?;
    let case = Case {
        rest: "offered 1 3 5 and 10 to 64",
        offered: !0b1_1110_1010,
        ..case
    };
    let bare = compare_part(out, case, 0b100_1111, bare, Furthest, Shifts::new())?;
    let case = Case {
        rest: "offered only 64, all active",
        offered: 1 << 63,
        ..case
    };
    let _ = compare(out, case, bare, Closest, Shifts::new())?;
    Ok(())
}

/// Writes the lines of all parts.
pub fn write_parts<W: Write>(out: &mut W) -> anyhow::Result<()> {
    write_opened(out, "graphic", 0, wheel()?)?;
    write_opened(out, "graphic, dual", 0b1100_0000, Dual::new(wheel()?))?;
    write_opened(out, "binary", 0b0110_0000, nine_columns()?)?;
    write_opened(
        out,
        "partition, cap 3, dual",
        0b11,
        Dual::new(Truncation::new(four_classes()?, 3)),
    )?;
    write_offered(out, "graphic", wheel()?)?;
    write_offered(out, "binary", nine_columns()?)?;
    write_offered(out, "partition", four_classes()?)
}
