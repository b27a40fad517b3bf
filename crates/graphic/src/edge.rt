ghost use Rattle.std.specs.Prelude.{◌≡◌, ◌≤◌, bit_xor};
ghost use Rattle.graphic.specs.Points.{most_points};
ghost use Rattle.labels.specs.Sets.{single};

/// An edge joins two points, which are one point where it is a loop.
/// Its column has the places of the two points, and none where it is a loop.
// Two bytes and no type for a point: callers have bytes, and one test and one refusal serve both.
#[derive(Clone, Copy, Debug, PartialEq, Eq)]
pub struct Edge {
    pub(crate) a: u8,
    pub(crate) b: u8,
    pub(crate) column: u64,
    ghost alow: { 1 ≤ a },
    ghost ahigh: { a ≤ most_points },
    ghost blow: { 1 ≤ b },
    ghost bhigh: { b ≤ most_points },
    ghost joins: { column ≡ bit_xor (single a) (single b) },
}

impl Edge {
    /// The edge that joins two points.
    pub(crate) fn new(a: u8, b: u8) -> Edge
        requires a { (1 ≤ a) × (a ≤ most_points) }
        requires b { (1 ≤ b) × (b ≤ most_points) }
        ensures a { result.a ≡ a }
        ensures b { result.b ≡ b }
    {
        Edge {
            a,
            b,
            column: (1u64 << (a - 1)) ^ (1u64 << (b - 1)),
        }
    }
}
