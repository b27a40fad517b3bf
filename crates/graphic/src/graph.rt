ghost use Rattle.std.specs.Prelude.{◌≤◌};
ghost use Rattle.graphic.specs.Points.{most_points};

use crate::edge::Edge;
use entries::Entries;

/// A graph with numbered points, whose edges are the labels of a matroid: a set of edges is independent where it is a forest.
#[derive(Drop)]
pub struct Graphic {
    pub(crate) points: u8,
    pub(crate) edges: Entries<Edge>,
    ghost many: { points ≤ most_points },
}
