//! An input, into a buffer.
#![tactic(auto)]

ghost use Rattle.intake.specs.Taking.{Lost, Taken};
ghost use Rattle.std.specs.IoError.{error_kind};
ghost use Rattle.std.specs.Prelude.{◌≡◌, ◌≤◌, ◌≢◌, length, take, IfErr, MatchResult};

#[cfg(test)]
mod tests;

use std::io;
use std::io::{ErrorKind, Read};

/// Fills the buffer from a reader, and answers how many bytes came: fewer than there is room for only where the reader's end was met.
/// A read that was interrupted is tried again. Where another read fails, the bytes that came before it stand at the buffer's front.
// A length: once a part of the buffer is lent out by a result, no plain clause can say of it that it is the buffer's front (tried).
pub fn take_from<R: Read>(input: &mut R, buffer: &mut [u8]) -> io::Result<usize>
    ensures bytes { MatchResult result
        (λ n. (n ≤ length buffer.new) × Taken (R.remaining input.old) (R.remaining input.new) (length buffer.new) (take n buffer.new))
        (λ _. Lost (R.remaining input.old) (R.remaining input.new) buffer.new) }
    ensures retried { IfErr result (λ e. error_kind e ≢ ErrorKind.Interrupted) }
    ensures room { length buffer.new ≡ length buffer.old }
{
    let mut n: usize = 0;
    // Nothing says that an input ever ends, and this function does.
    let mut tries = u64::MAX;
    while n < buffer.len() {
        if tries == 0 {
            return Err(io::Error::from(ErrorKind::TimedOut));
        }
        tries -= 1;
        match input.read(&mut buffer[n..]) {
            Ok(0) => return Ok(n),
            // A sum: a read may bring a part only, and `read_exact` is an error where the input ends first.
            Ok(came) => n += came,
            Err(e) => {
                if e.kind() != ErrorKind::Interrupted {
                    return Err(e);
                }
            }
        }
    }
    Ok(n)
}
