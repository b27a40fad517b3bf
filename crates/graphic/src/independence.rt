ghost use Rattle.binary_laws.specs.Binary.{NoEvenPart};
ghost use Rattle.binary_laws.specs.Graphic.{incidence};
ghost use Rattle.graphic.specs.Edges.{graph};
ghost use Rattle.graphic.specs.Graphs.{degree, first_end, forest, second_end};
ghost use Rattle.std.specs.Prelude.{◌≡◌, true, ◌↔◌, length};
ghost use Rattle.graphic.specs.GraphsLemmas.{columns_low, graph_few, points_few};
ghost use Rattle.binary_laws.proofs.Laws.{binary_is};

use crate::graph::Graphic;
use binary::BinaryMatrix;
use entry::MOST_POINTS;
use matroid::Matroid;

/// A column has a place for each point that there can be.
const PLACES: usize = MOST_POINTS as usize;

/// The incidence matrix: the column of an edge has the places of its two points.
impl BinaryMatrix<PLACES> for Graphic {
    ghost width = { λ g. length (graph g) };

    ghost column = { λ g. incidence (first_end (graph g)) (second_end (graph g)) };

    ghost narrow = { graph_few };

    ghost room = { points_few };

    ghost low = { λ g e _. columns_low g e };

    fn width(&self) -> u8 {
        self.edges.len()
    }

    fn column(&self, label: u8) -> u64 {
        self.edges.get(label).map_or(0, |edge| edge.column)
    }
}

/// The matroid of the forests of a graph.
// Not one impl for every `BinaryMatrix`: the clause `odd` speaks of points here, and of places in `Binary`.
impl Matroid for Graphic {
    ghost size = { λ g. length (graph g) };

    ghost independent = { λ g. forest (graph g) };

    ghost few = { graph_few };

    ghost matroid = { λ g. binary_is _ _ };

    fn size(&self) -> u8 {
        self.width()
    }

    /// Whether `set` is a forest: whether each part of it, but the empty one, meets some point an odd number of times.
    fn is_independent(&self, set: u64) -> bool
        ensures is { result ≡ forest (graph self.now) set }
        ensures odd { (result ≡ true) ↔ NoEvenPart (length (graph self.now)) (degree (graph self.now)) set }
    {
        binary::is_independent(self, set)
    }
}
