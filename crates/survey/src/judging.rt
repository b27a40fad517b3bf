//! The checks of one line, in their order.
ghost use Rattle.std.specs.Prelude.{◌≡◌, ◌<◌, true, length, is_ok, Some, None, cond};
ghost use Rattle.std.specs.Option.{option_map};
ghost use Rattle.labels.specs.Sets.{limit};
ghost use Rattle.survey_laws.specs.Check.{is_point, reaches as reach, in_range, judged, next_row, first_line};
ghost use Rattle.survey.specs.View.{row_of, fields_of, rows_of, row_outcome, points_outcome};

use crate::fields::{Fields, split_row};
use crate::numerals::number;
use crate::table::Survey;
use crate::values::{Fault, Row};
use entry::MOST_POINTS;

const FURTHEST: i64 = 1000000;

// The point that has this number, if it is one of the points 1 to `most`.
fn point(x: u32, most: u8) -> Option<u8>
    ensures { result ≡ cond (is_point most x) (Some x) None }
{
    u8::try_from(x).ok().filter(|p| (1..=most).contains(p))
}

fn reaches(z: i64) -> bool
    ensures { result ≡ reach z }
{
    (-FURTHEST..=FURTHEST).contains(&z)
}

// The row that has these fields, if all four are in range.
fn row_in_range(points: u8, f: Fields) -> Option<Row>
    ensures { option_map row_of result ≡ cond (in_range points (fields_of f)) (Some (fields_of f)) None }
{
    let row = Row {
        a: point(f.a, points)?,
        b: point(f.b, points)?,
        across: f.across,
        along: f.along,
    };
    (reaches(row.across) && reaches(row.along)).then_some(row)
}

fn judge(survey: &Survey, f: Fields) -> Result<Row, Fault>
    ensures { row_outcome result ≡ judged survey.now.points (rows_of survey.now) (fields_of f) }
{
    let row = row_in_range(survey.points, f).ok_or(Fault::OutOfRange)?;
    if row.a == row.b {
        return Err(Fault::SamePoint);
    }
    if survey.has_pair(row) {
        return Err(Fault::RepeatedPair);
    }
    Ok(row)
}

/// The row of a line that comes after the rows of the survey, or the first thing that is wrong with it.
pub fn next(survey: &Survey, line: &[u8]) -> Result<Row, Fault>
    ensures is { row_outcome result ≡ next_row survey.now.points (rows_of survey.now) line.now }
    ensures room { is_ok result ≡ true → length (rows_of survey.now) < limit }
{
    if survey.is_full() {
        return Err(Fault::TooManyRows);
    }
    judge(survey, split_row(line).ok_or(Fault::WrongForm)?)
}

/// The number of points, by the first line.
pub fn head(line: &[u8]) -> Result<u8, Fault>
    ensures { points_outcome result ≡ first_line line.now }
{
    let p = number(line).ok_or(Fault::WrongForm)?;
    point(p, MOST_POINTS).ok_or(Fault::OutOfRange)
}
