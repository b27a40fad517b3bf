//! The graphs that are walked on.
use anyhow::Context;
use graphic::Graphic;
use measure::Shifts;
use survey_walk::SurveyWalk;
use tie_rule::Closest;
use walk::Walk;

/// Two points that an edge joins.
pub type Pair = (u8, u8);

/// A graph, and how a walk on it begins. A set is a word, label `e` at bit `e - 1`.
#[derive(Clone, Copy, Debug, PartialEq, Eq)]
pub struct Rig {
    /// What it is called.
    pub name: &'static str,
    /// How many points there are.
    pub points: u8,
    /// The edges, in the order of their labels.
    pub edges: &'static [Pair],
    /// The set that the start is made from.
    pub offered: u64,
    /// The labels that are active at the start.
    pub opened: u64,
}

/// The triangle, from the empty set and with all labels active.
pub const TRIANGLE: Rig = Rig {
    name: "triangle",
    points: 3,
    edges: &[(1, 2), (2, 3), (1, 3)],
    offered: 0,
    opened: 0b111,
};

/// The shifts of the labels 1, 2 and 3; all others are worth nothing.
const SHIFTS: [(i64, i64); 3] = [(10, 0), (0, 5), (-2, 1)];

/// The graph with these edges.
// Other crates fill graphs so too; one in `graphic` would need a contract on which edge is refused first and why, its proof and an edit.
pub fn graph_of(points: u8, edges: &[Pair]) -> anyhow::Result<Graphic> {
    let mut graphic = Graphic::new(points).context("the number of points is refused")?;
    for (a, b) in edges {
        graphic.add(*a, *b).context("an edge is refused")?;
    }
    Ok(graphic)
}

/// The complete graph: each two points are joined, those of lower points first.
// `piles` has one too; one for both would be public, with a contract on all the pairs, its proof and an edit.
pub fn complete(points: u8) -> anyhow::Result<Graphic> {
    let mut graphic = graph_of(points, &[])?;
    // By point: the pairs are made of the numbers of the points, and there is no list of them.
    for last in 1..=points {
        for first in 1..last {
            graphic.add(first, last).context("a pair is refused")?;
        }
    }
    Ok(graphic)
}

/// The shifts that every walk is measured by.
fn shifts() -> anyhow::Result<Shifts> {
    let mut shifts = Shifts::new();
    for (across, along) in &SHIFTS {
        shifts.add(*across, *along).context("a shift is refused")?;
    }
    Ok(shifts)
}

/// Begins a walk on a graph.
pub fn begun_on(graphic: Graphic, offered: u64, opened: u64) -> anyhow::Result<SurveyWalk> {
    let shifts = shifts()?;
    Ok(Walk::begin(graphic, Closest, shifts, offered, opened))
}

/// Begins the walk of a rig.
pub fn begun(rig: Rig) -> anyhow::Result<SurveyWalk> {
    begun_on(graph_of(rig.points, rig.edges)?, rig.offered, rig.opened)
}

/// Does the work on a walk, then ends the walk, and lets go of all that it held.
pub(crate) fn during<T, F: FnOnce(&mut SurveyWalk) -> T>(mut walk: SurveyWalk, work: F) -> T
    requires { F.IsAlwaysCallable work }
{
    let told = work(&mut walk);
    let _ = walk.close();
    told
}
