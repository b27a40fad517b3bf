//! The lines that are printed, with what each of them says, byte for byte.
#![tactic(auto)]

mod filling;
mod label_text;
mod line;
mod line_text;
mod page;
mod refused_line;
mod sets;
#[cfg(test)]
mod tests;
mod total_line;

pub use filling::PageFull;
pub use line::Line;
pub use line_text::LineText;
pub use page::Page;
pub use refused_line::RefusedLine;
pub use sets::{SetText, set_text};
pub use total_line::TotalLine;
