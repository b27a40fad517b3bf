//! The rows that a survey keeps.
ghost use Rattle.std.specs.Prelude.{◌≡◌, ◌<◌, ◌≤◌, [], ◌∷◌, ◌++◌, length, map, nat_le};
ghost use Rattle.std.specs.Option.{option_map};
ghost use Rattle.std.specs.List.{slice_get};
ghost use Rattle.labels.specs.Sets.{limit};
ghost use Rattle.survey_laws.specs.Check.{same_pair, met};
ghost use Rattle.survey.specs.View.{row_of, rows_of, sheet_of};

use crate::table::Survey;
use crate::values::Row;
use arrayvec::ArrayVec;

// Whether two rows have the same pair of points, either way round.
fn is_same_pair(one: Row, other: Row) -> bool
    ensures { result ≡ same_pair (row_of one) (row_of other) }
{
    (one.a == other.a && one.b == other.b) || (one.a == other.b && one.b == other.a)
}

impl Survey {
    pub(crate) fn new(points: u8) -> Survey
        ensures points { result.points ≡ points }
        ensures rows { rows_of result ≡ [] }
    {
        Survey {
            points,
            rows: ArrayVec::new(),
        }
    }

    /// How many points there are.
    pub fn points(&self) -> u8
        ensures { result ≡ (sheet_of self.now).points }
    {
        self.points
    }

    /// The rows, in the order of their labels, which are 1 to their number.
    pub fn rows(&self) -> &[Row]
        ensures are { map row_of result.now ≡ (sheet_of self.now).rows }
        ensures few { length result.now ≤ limit }
    {
        self.rows.as_slice()
    }

    /// How many rows there are.
    pub fn len(&self) -> usize
        ensures is { result ≡ length (sheet_of self.now).rows }
        ensures few { result ≤ limit }
    {
        self.rows.len()
    }

    // Whether there is no room for a row more.
    pub(crate) fn is_full(&self) -> bool
        ensures { result ≡ nat_le limit (length (rows_of self.now)) }
    {
        self.rows.is_full()
    }

    /// The row at place `i`, from 0; its label is `i + 1`.
    pub fn row(&self, i: usize) -> Option<Row>
        ensures { option_map row_of result ≡ slice_get (sheet_of self.now).rows i }
    {
        self.rows().get(i).copied()
    }

    pub(crate) fn push(&mut self, row: Row)
        requires { length (rows_of self.old) < limit }
        ensures points { self.new.points ≡ self.old.points }
        ensures rows { rows_of self.new ≡ rows_of self.old ++ row_of row ∷ [] }
    {
        self.rows.push(row);
    }

    // Whether some row has the pair of points of `row`.
    pub(crate) fn has_pair(&self, row: Row) -> bool
        ensures { result ≡ met (rows_of self.now) (row_of row) }
    {
        self.rows().iter().any(|kept| is_same_pair(*kept, row))
    }
}
