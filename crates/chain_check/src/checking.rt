//! A chain file, from the bytes that are read to the bytes that are written.
ghost use Rattle.chain_check.specs.Answers.{Does};

use crate::answering::{Answer, answer_to};
use intake::take_from;
use outlet::send;
use std::alloc::Global;
use std::io;
use std::io::{Read, Write};

/// How many bytes a file has at most.
const MOST_INPUT: usize = 4096;

/// A byte more, so that a longer file shows.
const ROOM: usize = MOST_INPUT + 1;

/// Why there is no answer, or not all of it.
#[derive(Debug, Drop)]
pub enum Failure {
    /// The file could not be read; nothing was written.
    Reading(io::Error),
    /// There are more bytes than a file has; nothing was written.
    TooLong,
    /// There is no memory for the answer; nothing was written.
    NoMemory,
    /// The answer could not be written; what was written lacks its end.
    Writing(io::Error),
}

/// The program: reads a chain file, and writes a line for each of its records, up to the first that is at fault, and then whether
/// it is accepted.
pub fn check_file<R: Read, W: Write>(
    input: &mut R,
    out: &mut W,
    heap: Global,
) -> Result<Answer, Failure>
    ensures { Does (R.remaining input.old) (R.remaining input.new) (W.contents out.old) (W.contents out.new) result }
{
    // A fixed buffer, so that no input takes more memory than this.
    let mut buffer = [0u8; ROOM];
    let n = take_from(input, &mut buffer).map_err(Failure::Reading)?;
    if n > MOST_INPUT {
        return Err(Failure::TooLong);
    }
    let Ok((answer, text)) = answer_to(&buffer[..n], heap) else {
        return Err(Failure::NoMemory);
    };
    match send(out, text.as_bytes()) {
        Ok(()) => Ok(answer),
        Err(e) => Err(Failure::Writing(e)),
    }
}
