//! How entries and lists are printed.
use chain_lists::Total;
use chain_reader::{Entry, Summary};
use lines::set_text;
use std::fmt;

/// A value as it is printed here.
// A wrapper: this text is this program's alone; at the type it would be public, with a clause and an edit.
#[derive(Clone, Copy, Debug)]
pub struct Shown<T>(pub T);

/// What a record says.
impl fmt::Display for Shown<Entry> {
    fn fmt<W: fmt::Write>(&self, f: &mut fmt::Formatter<W>) -> fmt::Result {
        match self.0 {
            Entry::Head(n, start) => write!(f, "head {n}, set {}", set_text(start)),
            Entry::Exchange(swap, set) => write!(
                f,
                "exchange {} {}, set {}",
                swap.high,
                swap.low,
                set_text(set)
            ),
            Entry::Total(total) => write!(f, "{total}"),
            Entry::End(count) => write!(f, "end {count}"),
        }
    }
}

/// A list in short.
impl fmt::Display for Shown<Summary> {
    fn fmt<W: fmt::Write>(&self, f: &mut fmt::Formatter<W>) -> fmt::Result {
        let s = self.0;
        write!(
            f,
            "labels {}, {} sets from {} to {}",
            s.n,
            s.count,
            set_text(s.start),
            set_text(s.last)
        )?;
        if let Some((across, along)) = s.shift {
            write!(f, ", {}", Total::Shift(across, along))?;
        }
        if let Some(word) = s.lamp {
            write!(f, ", {}", Total::Lamp(word))?;
        }
        Ok(())
    }
}
