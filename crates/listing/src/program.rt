ghost use Rattle.outlet.specs.Sending.{Sends};
ghost use Rattle.survey.specs.View.{wrong_of};
ghost use Rattle.survey_laws.specs.Laws.{AcceptsExactly, FrontDecides, RefusesFirst};
ghost use Rattle.listing.specs.Texts.{refused_line};
ghost use Rattle.listing.specs.Program.{Answers, Does, LinesAreBases, OneText};

use crate::totals::write_list;
use crate::watch::Watch;
use intake::take_from;
use lines::RefusedLine;
use outlet::send;
use std::io;
use std::io::{Read, Write};
use survey::Refusal;
use survey_laws::check_holds;
use survey_walk::walk_of;

/// How many bytes of an input are read; no lawful survey is longer.
pub const MOST_INPUT: usize = 4096;

/// What was written.
#[derive(Clone, Copy, Debug, PartialEq, Eq)]
pub enum Answer {
    /// The list of the survey.
    Listed,
    /// That the input is no survey, and why not; the input is so many of the buffer's first bytes.
    Refused { why: Refusal, length: usize },
}

/// Why the answer is not whole.
#[derive(Debug, Drop)]
pub enum Failure {
    /// The input could not be read; nothing was written.
    Reading(io::Error),
    /// The answer could not be written; what was written lacks its end.
    Writing(io::Error),
}

/// Writes the line of a refusal.
fn write_refusal<W: Write>(out: &mut W, refusal: Refusal) -> io::Result<()>
    ensures { Sends (W.contents out.old) (W.contents out.new) result (refused_line (wrong_of refusal.fault) refusal.row) }
{
    let line = RefusedLine {
        number: refusal.fault.number(),
        row: refusal.row,
    };
    send(out, line.text().as_bytes())
}

/// Writes the answer to a text.
fn write_answer<W: Write, T: Watch>(out: &mut W, watch: &mut T, text: &[u8]) -> io::Result<Answer>
    ensures { Answers (W.contents out.old) (W.contents out.new) result text.now }
{
    // No code: what the check accepts, as a fact for the proof.
    check_holds();
    match walk_of(text) {
        Ok((survey, mut walk)) => {
            watch.begun(&survey);
            let written = write_list(out, watch, &mut walk);
            let _ = walk.close();
            written?;
            Ok(Answer::Listed)
        }
        Err(why) => {
            write_refusal(out, why)?;
            Ok(Answer::Refused {
                why,
                length: text.len(),
            })
        }
    }
}

/// The program. Reads an input into the buffer that is lent; if it is a survey, writes every base of its graph once, with the count and
/// the total at the end, and else why it is refused. Who watches is told how it goes on, and changes nothing of it.
pub fn list_survey<R: Read, W: Write, T: Watch>(
    input: &mut R,
    buffer: &mut [u8; MOST_INPUT],
    out: &mut W,
    watch: &mut T,
) -> Result<Answer, Failure>
    ensures does { Does (R.remaining input.old) (R.remaining input.new) buffer.new (W.contents out.old) (W.contents out.new) result }
    ensures one { OneText }
    ensures bases { LinesAreBases }
    ensures accepts { AcceptsExactly }
    ensures refuses { RefusesFirst }
    ensures front { FrontDecides }
{
    check_holds();
    let length = take_from(input, buffer).map_err(Failure::Reading)?;
    write_answer(out, watch, &buffer[..length]).map_err(Failure::Writing)
}
