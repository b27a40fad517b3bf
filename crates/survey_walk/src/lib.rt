//! From the text of a survey to the walk over all spanning trees of its graph.
#![tactic(auto)]

mod opening;
mod rig;

pub use opening::{SurveyWalk, walk_of};
