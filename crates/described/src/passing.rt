//! Lines on their way to a writer.
ghost use Rattle.described.specs.Held.{PassesOn};
ghost use Rattle.outlet.specs.Sending.{Sends};
ghost use Rattle.std.specs.Prelude.{◌≡◌, [], ◌++◌, codes, IfSome, OnOk, string_bytes};

use outlet::send;
use std::alloc::Global;
use std::fmt::Display;
use std::io;
use std::io::Write;

/// From how many bytes on nothing is held back; as many as the library's `BufWriter` holds.
const ENOUGH: usize = 8192;

/// A writer, and lines that are held back until there are enough of them.
// No `BufWriter`: no clause says what is held back in it.
#[derive(Drop)]
pub struct Outgoing<W> {
    writer: W,
    held: String,
}

impl<W: Write> Outgoing<W> {
    pub fn new(writer: W, heap: Global) -> Outgoing<W>
        ensures writer { result.writer ≡ writer }
        ensures held { string_bytes result.held ≡ [] }
    {
        Outgoing {
            writer,
            held: String::new(heap),
        }
    }

    /// Writes what is held back.
    pub fn flush(&mut self) -> io::Result<()>
        ensures sends { Sends (W.contents self.old.writer) (W.contents self.new.writer) result (string_bytes self.old.held) }
        ensures clear { OnOk result (string_bytes self.new.held ≡ []) }
    {
        send(&mut self.writer, self.held.as_bytes())?;
        self.held.clear();
        Ok(())
    }

    /// Adds a line.
    pub fn line<D: Display + Drop>(&mut self, line: D) -> io::Result<()>
        ensures { IfSome (D.output line) (λ text. PassesOn W.contents self.old self.new result (text ++ codes "\n")) }
    {
        writeln!(self.held, "{line}")?;
        if self.held.len() >= ENOUGH {
            self.flush()?;
        }
        Ok(())
    }
}
