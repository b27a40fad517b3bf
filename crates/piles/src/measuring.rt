//! Each rule with each measure over one pile, and totals that are worked out by hand.
use crate::comparing::{Case, compare, walked};
use crate::kinds::{filled, graph_of, nine_columns};
use binary_matroid::Binary;
use graphic::Graphic;
use layers::{Dual, Truncation};
use measure::{Shifts, Words};
use std::io::Write;
use tie_rule::{Closest, Furthest, TieRule, Turnabout};
use walk::Walk;

/// A triangle, and a fourth edge beside its last one.
const DOUBLED: [(u8, u8); 4] = [(1, 2), (2, 3), (1, 3), (1, 3)];

/// A bridge, and two edges side by side.
const BRIDGED: [(u8, u8); 3] = [(1, 2), (2, 3), (2, 3)];

/// The measure with these words.
pub fn words_of(entries: &[u64]) -> anyhow::Result<Words> {
    filled(Words::new(), entries, "a word is refused", Words::add)
}

/// The measure with these shifts.
pub fn shifts_of(entries: &[(i64, i64)]) -> anyhow::Result<Shifts> {
    filled(
        Shifts::new(),
        entries,
        "a shift is refused",
        |shifts, (across, along)| shifts.add(across, along),
    )
}

/// A pile of two layers.
fn pile() -> anyhow::Result<Truncation<Dual<Binary>>> {
    Ok(Truncation::new(Dual::new(nine_columns()?), 4))
}

/// One rule with both measures.
fn write_rule<W: Write, R: TieRule + Copy + Drop>(
    out: &mut W,
    kind: &'static str,
    rule: R,
) -> anyhow::Result<()> {
    let case = Case {
        kind,
        rest: "shifts over binary, dual, cap 4",
        offered: 0b1_0000_1111,
    };
    let _ = compare(out, case, pile()?, rule, shifts_of(&[(1, 2), (3, -4)])?)?;
    let case = Case {
        rest: "words over binary, dual, cap 4",
        ..case
    };
    let _ = compare(out, case, pile()?, rule, words_of(&[1, 2, 4])?)?;
    Ok(())
}

/// The total of the words over all bases of a graph, from the empty set.
fn word_total<R: TieRule + Drop>(graph: Graphic, rule: R, words: Words) -> u64 {
    walked(Walk::begin(graph, rule, words, 0, u64::MAX))
        .view
        .total
        .bits
}

/// Writes totals of words and of shifts.
fn write_totals<W: Write>(out: &mut W) -> anyhow::Result<()> {
    let graph = graph_of(3, &[(1, 2), (2, 3), (1, 3)])?;
    let total = word_total(graph, Closest, words_of(&[1, 2, 4])?);
    writeln!(out, "triangle, words 1 2 4, total: {total}")?;
    let total = word_total(graph_of(3, &DOUBLED)?, Furthest, words_of(&[1, 2, 4])?);
    writeln!(
        out,
        "triangle with an edge doubled, words 1 2 4, total: {total}"
    )?;
    let total = word_total(
        graph_of(3, &BRIDGED)?,
        Turnabout::new(),
        words_of(&[1, 2, 4])?,
    );
    writeln!(
        out,
        "bridge and two parallel edges, words 1 2 4, total: {total}"
    )?;
    let graph = graph_of(3, &DOUBLED)?;
    let shifts = shifts_of(&[(10, 0), (0, 5), (-2, 1)])?;
    let view = walked(Walk::begin(graph, Turnabout::new(), shifts, 0, u64::MAX)).view;
    writeln!(
        out,
        "triangle with an edge doubled, total: {} across, {} along",
        view.total.across, view.total.along
    )?;
    Ok(())
}

/// Writes the lines of all rules and measures.
pub fn write_measures<W: Write>(out: &mut W) -> anyhow::Result<()> {
    write_rule(out, "closest", Closest)?;
    write_rule(out, "furthest", Furthest)?;
    write_rule(out, "turnabout", Turnabout::new())?;
    write_totals(out)
}
