//! How sets, shifts, exchanges and views are printed.
use lines::set_text;
use measure::Shift;
use std::fmt;
use walk::{Exchange, Stop, View};

/// A value as it is printed here.
// A wrapper, so that a list prints sets and exchanges alike (`Shown<E>`); but for sets, the texts are this program's alone.
#[derive(Clone, Copy, Debug)]
pub struct Shown<T>(pub T);

/// A set, by its labels.
impl fmt::Display for Shown<u64> {
    fn fmt<W: fmt::Write>(&self, f: &mut fmt::Formatter<W>) -> fmt::Result {
        write!(f, "{}", set_text(self.0))
    }
}

/// Across, then along.
impl fmt::Display for Shown<Shift> {
    fn fmt<W: fmt::Write>(&self, f: &mut fmt::Formatter<W>) -> fmt::Result {
        write!(f, "{} {}", self.0.across, self.0.along)
    }
}

/// The higher label, the lower label, and whether the higher one came in or went out.
impl fmt::Display for Shown<Exchange> {
    fn fmt<W: fmt::Write>(&self, f: &mut fmt::Formatter<W>) -> fmt::Result {
        let way = if self.0.came { "came" } else { "went" };
        write!(f, "({}, {}, {way})", self.0.high, self.0.low)
    }
}

/// The reason in a word.
impl fmt::Display for Shown<Stop> {
    fn fmt<W: fmt::Write>(&self, f: &mut fmt::Formatter<W>) -> fmt::Result {
        match self.0 {
            Stop::Full => write!(f, "full"),
            Stop::Finished => write!(f, "finished"),
        }
    }
}

/// The five fields.
impl fmt::Display for Shown<View<Shift>> {
    fn fmt<W: fmt::Write>(&self, f: &mut fmt::Formatter<W>) -> fmt::Result {
        let view = self.0;
        write!(
            f,
            "at {}, active {}, count {}, value {}, total {}",
            Shown(view.present),
            Shown(view.active),
            view.count,
            Shown(view.value),
            Shown(view.total)
        )
    }
}
