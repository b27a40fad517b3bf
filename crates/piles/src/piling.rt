//! Three layers in each order over each kind of matroid.
use crate::comparing::{Case, compare};
use crate::kinds::{complete, four_classes, nine_columns, three_classes, wheel};
use layers::{Dual, Minor, Truncation};
use matroid::Matroid;
use measure::Shifts;
use std::io::Write;
use tie_rule::{Closest, Furthest, Turnabout};

/// The minor of all piles: labels 1 and 5 are contracted and label 3 is deleted.
fn minor<P: Matroid>(below: P) -> Minor<P> {
    Minor::new(below, 0b10001, 0b00100)
}

/// The two orders in which the dual lies lowest.
// Not one function for the three lowest layers: each lays piles of its own types, and keeps the lowest layer between its two orders.
// The name goes beside the matroid, here and below: `Case` takes the one and `compare` the other.
fn write_dual_lowest<W: Write, P: Matroid + Drop>(
    out: &mut W,
    kind: &'static str,
    matroid: P,
) -> anyhow::Result<P> {
    let case = Case {
        kind,
        rest: "dual, cap 3, minor, closest",
        offered: 0,
    };
    let pile = minor(Truncation::new(Dual::new(matroid), 3));
    let back = compare(out, case, pile, Closest, Shifts::new())?;
    let case = Case {
        kind,
        rest: "dual, minor, cap 2, furthest",
        offered: 0b1010_1010,
    };
    let pile = Truncation::new(minor(back.into_below().into_below()), 2);
    let back = compare(out, case, pile, Furthest, Shifts::new())?;
    Ok(back.into_below().into_below().into_below())
}

/// The two orders in which the truncation lies lowest.
fn write_truncation_lowest<W: Write, P: Matroid + Drop>(
    out: &mut W,
    kind: &'static str,
    matroid: P,
) -> anyhow::Result<P> {
    let case = Case {
        kind,
        rest: "cap 3, dual, minor, turnabout",
        offered: 0b1_1100_0000,
    };
    let pile = minor(Dual::new(Truncation::new(matroid, 3)));
    let back = compare(out, case, pile, Turnabout::new(), Shifts::new())?;
    let case = Case {
        kind,
        rest: "cap 3, minor, dual, closest",
        offered: u64::MAX,
    };
    let pile = Dual::new(minor(back.into_below().into_below()));
    let back = compare(out, case, pile, Closest, Shifts::new())?;
    Ok(back.into_below().into_below().into_below())
}

/// The two orders in which the minor lies lowest.
fn write_minor_lowest<W: Write, P: Matroid + Drop>(
    out: &mut W,
    kind: &'static str,
    matroid: P,
) -> anyhow::Result<P> {
    let case = Case {
        kind,
        rest: "minor, dual, cap 3, furthest",
        offered: 0b0101_0101,
    };
    let pile = Truncation::new(Dual::new(minor(matroid)), 3);
    let back = compare(out, case, pile, Furthest, Shifts::new())?;
    let case = Case {
        kind,
        rest: "minor, cap 1, dual, turnabout",
        offered: 0,
    };
    let pile = Dual::new(Truncation::new(back.into_below().into_below(), 1));
    let back = compare(out, case, pile, Turnabout::new(), Shifts::new())?;
    Ok(back.into_below().into_below().into_below())
}

/// The six orders over one matroid, which is laid bare again after each.
fn write_orders<W: Write, P: Matroid + Drop>(
    out: &mut W,
    kind: &'static str,
    matroid: P,
) -> anyhow::Result<()> {
    let case = Case {
        kind,
        rest: "bare, closest",
        offered: 0,
    };
    let bare = compare(out, case, matroid, Closest, Shifts::new())?;
    let bare = write_dual_lowest(out, kind, bare)?;
    let bare = write_truncation_lowest(out, kind, bare)?;
    let bare = write_minor_lowest(out, kind, bare)?;
    let case = Case {
        rest: "bare again, furthest",
        ..case
    };
    let _ = compare(out, case, bare, Furthest, Shifts::new())?;
    Ok(())
}

/// Two duals, and then five layers, over one matroid.
fn write_deep<W: Write, P: Matroid + Drop>(
    out: &mut W,
    kind: &'static str,
    matroid: P,
) -> anyhow::Result<()> {
    let case = Case {
        kind,
        rest: "dual, dual, turnabout",
        offered: 0b11_0000_0000,
    };
    let pile = Dual::new(Dual::new(matroid));
    let twice = compare(out, case, pile, Turnabout::new(), Shifts::new())?;
    let case = Case {
        rest: "dual, dual, minor, dual, cap 2, furthest",
        ..case
    };
    let pile = Truncation::new(Dual::new(minor(twice)), 2);
    let _ = compare(out, case, pile, Furthest, Shifts::new())?;
    Ok(())
}

/// Writes the lines of all piles.
pub fn write_piles<W: Write>(out: &mut W) -> anyhow::Result<()> {
    write_orders(out, "graphic", wheel()?)?;
    write_orders(out, "binary", nine_columns()?)?;
    write_orders(out, "partition", four_classes()?)?;
    write_deep(out, "complete graph of 5 points", complete()?)?;
    write_deep(out, "twelve labels in three classes", three_classes()?)
}
