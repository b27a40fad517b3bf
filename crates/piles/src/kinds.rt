//! The matroids that the layers lie over.
use anyhow::Context;
use binary_matroid::Binary;
use entry::EntryRefusal;
use graphic::Graphic;
use partition::{CLASSES, Partition};

/// The table with these values entered, label by label; `refused` says what went wrong where one is refused.
pub(crate) fn filled<T: Drop, V: Copy, F: Fn(&mut T, V) -> Result<(), EntryRefusal>>(
    mut table: T,
    values: &[V],
    refused: &'static str,
    add: F,
) -> anyhow::Result<T>
    requires { F.IsAlwaysCallable add }
{
    for value in values {
        add(&mut table, *value).context(refused)?;
    }
    Ok(table)
}

/// The graph with these edges.
// Other crates fill graphs so too; one in `graphic` would need a contract on which edge is refused first and why, its proof and an edit.
pub fn graph_of(points: u8, edges: &[(u8, u8)]) -> anyhow::Result<Graphic> {
    let graphic = Graphic::new(points).context("the number of points is refused")?;
    filled(graphic, edges, "an edge is refused", |graphic, (a, b)| {
        graphic.add(a, b)
    })
}

/// The binary matroid with these columns.
pub fn columns_of(columns: &[u64]) -> anyhow::Result<Binary> {
    filled(Binary::new(), columns, "a column is refused", Binary::add)
}

/// The partition matroid with these limits, and with the labels in these classes.
pub fn classes_of(limits: [u8; CLASSES], classes: &[u8]) -> anyhow::Result<Partition> {
    let partition = Partition::new(limits).context("a limit is refused")?;
    filled(partition, classes, "a class is refused", Partition::add)
}

/// A wheel: point 1 is joined to each of a round of four points, spokes and rim in turn.
pub fn wheel() -> anyhow::Result<Graphic> {
    graph_of(
        5,
        &[
            (1, 2),
            (2, 3),
            (1, 3),
            (3, 4),
            (1, 4),
            (4, 5),
            (1, 5),
            (5, 2),
        ],
    )
}

/// Nine columns of four places.
pub fn nine_columns() -> anyhow::Result<Binary> {
    columns_of(&[1, 2, 3, 4, 7, 8, 9, 14, 15])
}

/// Nine labels in four classes, the last of which allows none.
pub fn four_classes() -> anyhow::Result<Partition> {
    classes_of([2, 1, 2, 0, 0, 0, 0, 0], &[1, 2, 3, 1, 2, 3, 1, 4, 3])
}

/// The complete graph of five points: each two are joined, those of lower points first.
// By point, as in `rigs`; one for both would be public, with a contract on all the pairs, its proof and an edit.
pub fn complete() -> anyhow::Result<Graphic> {
    let mut graphic = graph_of(5, &[])?;
    for last in 2..=5 {
        for first in 1..last {
            graphic.add(first, last).context("an edge is refused")?;
        }
    }
    Ok(graphic)
}

/// Twelve labels in three classes.
pub fn three_classes() -> anyhow::Result<Partition> {
    classes_of(
        [1, 2, 0, 0, 0, 0, 0, 3],
        &[1, 2, 8, 8, 2, 1, 1, 2, 8, 8, 2, 1],
    )
}
