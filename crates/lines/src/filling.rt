ghost use Rattle.lines.specs.Pages.{Puts, page_text};
ghost use Rattle.std.specs.Prelude.{◌≡◌, []};

use crate::line::{LINE_ROOM, Line, put_line};
use crate::page::{PAGE_SIZE, Page};

/// A page has no room for another line.
#[derive(Clone, Copy, Debug, PartialEq, Eq)]
pub struct PageFull;

impl Page {
    /// No lines yet.
    pub fn new() -> Page
        ensures { page_text result ≡ [] }
    {
        Page {
            bytes: [0; PAGE_SIZE],
            used: 0,
        }
    }

    /// The lines, as they are printed.
    pub fn text(&self) -> &[u8]
        ensures { result.now ≡ page_text self.now }
    {
        &self.bytes[..self.used]
    }

    /// Takes all lines off.
    pub fn clear(&mut self)
        ensures { page_text self.new ≡ [] }
    {
        self.used = 0;
    }

    /// Puts a line after the others. Refused, with nothing changed, exactly where less is left than the room of a line.
    pub fn put(&mut self, line: Line) -> Result<(), PageFull>
        ensures { Puts self.old line result self.new }
    {
        if PAGE_SIZE - self.used < LINE_ROOM {
            return Err(PageFull);
        }
        self.used = put_line(&mut self.bytes, self.used, line);
        Ok(())
    }
}
