ghost use Rattle.graphic.specs.Edges.{graph};
ghost use Rattle.measure.specs.Shifts.{entries_of};
ghost use Rattle.survey.specs.View.{sheet_of};
ghost use Rattle.survey_laws.specs.Sheets.{Lawful};
ghost use Rattle.survey_walk.specs.Rigs.{edges_of, shifts_for};
ghost use Rattle.std.specs.Prelude.{◌≡◌, MatchResult};

use entry::EntryRefusal;
use graphic::Graphic;
use measure::Shifts;
use survey::Survey;

/// The graph of a survey: each row is an edge. No lawful survey is refused.
pub(crate) fn graphic_of(survey: &Survey) -> Result<Graphic, EntryRefusal>
    ensures { MatchResult result
        (λ g. (g.points ≡ (sheet_of survey.now).points) × (graph g ≡ edges_of (sheet_of survey.now)))
        (λ _. Lawful (sheet_of survey.now) → ⊥) }
{
    let mut graphic = Graphic::new(survey.points())?;
    for row in survey.rows() {
        graphic.add(row.a, row.b)?;
    }
    Ok(graphic)
}

/// The shifts of a survey's edges. No survey is refused.
pub(crate) fn shifts_of(survey: &Survey) -> Result<Shifts, EntryRefusal>
    ensures { MatchResult result (λ m. entries_of m ≡ shifts_for (sheet_of survey.now)) (λ _. ⊥) }
{
    let mut shifts = Shifts::new();
    for row in survey.rows() {
        shifts.add(row.across, row.along)?;
    }
    Ok(shifts)
}
