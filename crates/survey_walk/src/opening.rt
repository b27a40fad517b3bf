ghost use Rattle.survey.specs.View.{sheet_of, wrong_of};
ghost use Rattle.survey_laws.specs.Check.{check, refused};
ghost use Rattle.survey_walk.specs.Opened.{Opened};
ghost use Rattle.std.specs.Prelude.{◌≡◌, MatchResult};

use crate::rig::{graphic_of, shifts_of};
use graphic::Graphic;
use measure::Shifts;
use survey::{Refusal, Survey, read};
use tie_rule::Closest;
use walk::Walk;

/// The walk over the spanning trees of a survey's graph, the closest label first, with the shifts as measure.
pub type SurveyWalk = Walk<Graphic, Closest, Shifts>;

/// The survey that the text writes, and the walk over all of its spanning trees, which begins from the empty set and with all labels
/// active; or the reader's refusal of the text.
pub fn walk_of(text: &[u8]) -> Result<(Survey, SurveyWalk), Refusal>
    ensures { MatchResult result
        (λ o. Opened text.now (sheet_of o.0) o.1)
        (λ e. check text.now ≡ refused (wrong_of e.fault) e.row) }
{
    let survey = read(text)?;
    // A lawful survey's graph and shifts are never refused; `?` would add a way to fail.
    let graphic = graphic_of(&survey).unwrap();
    let shifts = shifts_of(&survey).unwrap();
    Ok((survey, Walk::begin(graphic, Closest, shifts, 0, u64::MAX)))
}
