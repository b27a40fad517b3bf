//! What is printed of a chain file.
ghost use Rattle.chain_check.specs.Answers.{IsText};
ghost use Rattle.chain_check.specs.Lines.{entry_text, part_line};
ghost use Rattle.std.specs.Prelude.{◌≡◌, ◌++◌, IfOk, OnOk, string_bytes};

use chain_reader::{Entry, ListReader, Part};
use std::alloc::{AllocError, Global};

/// What was found of a file.
#[derive(Clone, Copy, Debug, PartialEq, Eq)]
pub enum Answer {
    Accepted,
    Refused,
}

/// Adds what a record says.
// A function, no `Display`: `Entry` is of another crate, and a wrapper for this one call is no plainer.
fn put_entry(text: &mut String, entry: Entry) -> Result<(), AllocError>
    ensures { OnOk result (string_bytes text.new ≡ string_bytes text.old ++ entry_text entry) }
{
    match entry {
        Entry::Head(n, start) => write!(text, "head {n} {start}"),
        Entry::Exchange(swap, set) => write!(text, "exchange {} {} {set}", swap.high, swap.low),
        Entry::Total(total) => write!(text, "{total}"),
        Entry::End(count) => write!(text, "end {count}"),
    }
}

/// Adds the line of a record.
fn put_record(text: &mut String, part: Part<'_>) -> Result<(), AllocError>
    ensures { OnOk result (string_bytes text.new ≡ string_bytes text.old ++ part_line part.entry) }
{
    let byte = part.record.spot.byte;
    let size = part.record.bytes.len();
    write!(text, "{byte} {size} ")?;
    put_entry(text, part.entry)?;
    writeln!(text)
}

/// The answer to a file, and its text: a line for each record, up to the first that is at fault, and then whether the file is accepted.
// A text as a whole, which is short where the file is: nothing is written of it before all of it is known.
pub fn answer_to(file: &[u8], heap: Global) -> Result<(Answer, String), AllocError>
    ensures { IfOk result (λ a. IsText file.now a.0 (string_bytes a.1)) }
{
    let mut text = String::new(heap);
    let mut reader = ListReader::new(file);
    loop {
        match reader.next() {
            Ok(Some(part)) => put_record(&mut text, part)?,
            Ok(None) => {
                writeln!(text, "accepted")?;
                return Ok((Answer::Accepted, text));
            }
            Err(fault) => {
                writeln!(text, "{fault}")?;
                return Ok((Answer::Refused, text));
            }
        }
    }
}
