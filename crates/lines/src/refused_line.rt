ghost use Rattle.lines.specs.Text.{refused_text};
ghost use Rattle.std.specs.Prelude.{◌≡◌, ◌++◌, codes};

use crate::line_text::{LineText, push_number};

/// A refusal by its number, and the row that it is about.
#[derive(Clone, Copy, Debug)]
pub struct RefusedLine {
    /// The number that the refusal is known by.
    // A number and no enum: this crate does not use the reader of surveys, so it does not know its faults.
    pub number: u8,
    /// The row.
    pub row: u32,
}

impl RefusedLine {
    /// The line: `refused`, the number, `row` and the row, with a space between each two.
    pub fn text(self) -> LineText
        ensures { result.bytes ≡ refused_text self.number self.row ++ codes "\n" }
    {
        let mut text = LineText::new();
        text.push_str("refused ");
        push_number(&mut text, self.number);
        text.push_str(" row ");
        push_number(&mut text, self.row);
        text.push_str("\n");
        text
    }
}
