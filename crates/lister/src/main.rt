//! Reads a survey from standard input and prints every chain of it once, with the count and the total at the end.
#![tactic(auto)]

use anyhow::anyhow;
use listing::{Answer, Failure, MOST_INPUT, Unwatched, list_survey};

fn main(rt: HostRuntime) -> anyhow::Result<()> {
    let mut buffer = [0; MOST_INPUT];
    let answer = list_survey(
        &mut rt.stdin(),
        &mut buffer,
        &mut rt.stdout(),
        &mut Unwatched,
    );
    match answer {
        Ok(Answer::Listed) => Ok(()),
        Ok(Answer::Refused { .. }) => Err(anyhow!("the survey is refused")),
        Err(Failure::Reading(e) | Failure::Writing(e)) => Err(e.into()),
    }
}
