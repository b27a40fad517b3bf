//! Bytes, to a writer.
#![tactic(auto)]

ghost use Rattle.outlet.specs.Sending.{Sends};
ghost use Rattle.std.specs.IoError.{error_kind};
ghost use Rattle.std.specs.Prelude.{◌≢◌, IfErr};

use std::io;
use std::io::{ErrorKind, Write};

/// Writes all of the bytes, by as many writes as it takes. A write that was interrupted is tried again. Where another one fails,
/// or takes nothing, a front of the bytes was written that is not all of them.
// A loop of its own: std's `write_all` says nothing of what was written before an error.
pub fn send<W: Write>(out: &mut W, bytes: &[u8]) -> io::Result<()>
    ensures sends { Sends (W.contents out.old) (W.contents out.new) result bytes.now }
    ensures retried { IfErr result (λ e. error_kind e ≢ ErrorKind.Interrupted) }
{
    let mut at = 0;
    // Nothing says that a writer ever takes a byte, and this function ends.
    let mut tries = u64::MAX;
    while at < bytes.len() {
        if tries == 0 {
            return Err(io::Error::from(ErrorKind::TimedOut));
        }
        tries -= 1;
        match out.write(&bytes[at..]) {
            Ok(0) => return Err(io::Error::from(ErrorKind::WriteZero)),
            Ok(n) => at += n,
            Err(e) => {
                if e.kind() != ErrorKind::Interrupted {
                    return Err(e);
                }
            }
        }
    }
    Ok(())
}
