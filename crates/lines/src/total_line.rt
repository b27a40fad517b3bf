ghost use Rattle.lines.specs.Text.{total_text};
ghost use Rattle.std.specs.Prelude.{◌≡◌, ◌++◌, codes};

use crate::line_text::{LineText, push_number};

/// What a list comes to: a count, and how far across and along.
#[derive(Clone, Copy, Debug)]
pub struct TotalLine {
    /// How many there are.
    pub count: u64,
    /// How far across.
    pub across: i64,
    /// How far along.
    pub along: i64,
}

impl TotalLine {
    /// The line: `total`, the count, across and along, with a space between each two.
    pub fn text(self) -> LineText
        ensures { result.bytes ≡ total_text self.count self.across self.along ++ codes "\n" }
    {
        let mut text = LineText::new();
        text.push_str("total ");
        push_number(&mut text, self.count);
        text.push_str(" ");
        push_number(&mut text, self.across);
        text.push_str(" ");
        push_number(&mut text, self.along);
        text.push_str("\n");
        text
    }
}
