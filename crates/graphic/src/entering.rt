ghost use Rattle.entry.specs.declared.EntryRefusal.TheVariants.{OutOfRange};
ghost use Rattle.graphic.specs.Edges.{Extended, graph};
ghost use Rattle.graphic.specs.Graphs.{admitted, ends_at};
ghost use Rattle.graphic.specs.Points.{in_range, most_points};
ghost use Rattle.std.specs.Prelude.{◌≡◌, true, false, [], length, is_ok, MatchResult};

use crate::edge::Edge;
use crate::graph::Graphic;
use entries::Entries;
use entry::{EntryRefusal, MOST_POINTS};

/// Whether `x` is one of 1 to `last`.
fn in_range(last: u8, x: u8) -> bool
    ensures { result ≡ in_range last x }
{
    (1..=last).contains(&x)
}

impl Graphic {
    /// A graph with so many points, and no edge. Refused as out of range where there is no point, or more than `MOST_POINTS`.
    pub fn new(points: u8) -> Result<Graphic, EntryRefusal>
        ensures answer { is_ok result ≡ in_range most_points points }
        ensures made { MatchResult result (λ g. (g.points ≡ points) × (graph g ≡ [])) (λ e. e ≡ OutOfRange) }
    {
        if !in_range(MOST_POINTS, points) {
            return Err(EntryRefusal::OutOfRange);
        }
        Ok(Graphic {
            points,
            edges: Entries::new(Edge::new(1, 1)),
        })
    }

    /// One edge more, at the next label, between two of the points, which may be the same one.
    /// Refused as out of range where one is not a point, and else as a label too many. A refusal changes nothing.
    pub fn add(&mut self, a: u8, b: u8) -> Result<(), EntryRefusal>
        ensures answer { result ≡ admitted self.old.points (length (graph self.old)) a b }
        ensures added { is_ok result ≡ true → Extended self.old a b self.new }
        ensures refused { is_ok result ≡ false → self.new ≡ self.old }
    {
        if !in_range(self.points, a) || !in_range(self.points, b) {
            return Err(EntryRefusal::OutOfRange);
        }
        self.edges.add(Edge::new(a, b))
    }

    /// How many points there are.
    pub fn points(&self) -> u8
        ensures { result ≡ self.now.points }
    {
        self.points
    }

    /// The two points that the edge `label` joins; none where there is no such label.
    pub fn ends(&self, label: u8) -> Option<(u8, u8)>
        ensures { result ≡ ends_at (graph self.now) label }
    {
        let edge = self.edges.get(label)?;
        Some((edge.a, edge.b))
    }
}
