//! What a chain file is made of, and what is lawful in it.
#![tactic(auto)]

ghost use Rattle.chain_lists.specs.Lists.{Marks, after, is_marked, kind_length, kind_number, kind_numbered, lawful_head, lawful_swap, total_kind};
ghost use Rattle.chain_lists.specs.Text.{total_text, unknown_kind_text};
ghost use Rattle.std.specs.Prelude.{◌≡◌, ℕ, ◌≤◌, List, true, [], ◌∷◌, ◌++◌, None, Some, MatchResult, bit_or, bit_xor, length, ◌==◌};
ghost use Rattle.label_words.specs.Words.{word_of};
ghost use Rattle.labels.specs.Sets.{limit};

use label_words::{contains, full_to, swapped};
use labels::LIMIT;
use std::error::Error;
use std::fmt;

/// How many bytes of a record stand before its body: four of length, two of kind.
pub const FRAME: usize = 6;

/// What a record of a chain file says.
#[derive(Clone, Copy, Debug, PartialEq, Eq)]
pub enum Kind {
    Head,
    Exchange,
    End,
    ShiftTotal,
    LampTotal,
}

/// A number that no kind of record has.
#[derive(Clone, Copy, Debug, PartialEq, Eq)]
pub struct UnknownKind(pub u16);

/// Two labels that change sides, the higher one and the lower one.
#[derive(Clone, Copy, Debug, PartialEq, Eq)]
pub struct Swap {
    pub high: u8,
    pub low: u8,
}

/// A total over all sets of a list, as a measure made it.
#[derive(Clone, Copy, Debug, PartialEq, Eq)]
pub enum Total {
    /// How far across and how far along.
    // Two numbers, no `Shift` of `measure`: this crate knows no measure.
    Shift(i64, i64),
    /// Which lamps burn.
    Lamp(u64),
}

/// Which kinds of totals a list has.
#[derive(Clone, Copy, Debug, PartialEq, Eq)]
pub struct TotalKinds {
    // Flags and no list: there are two kinds of totals, and a file has each once at most.
    pub shift: bool,
    pub lamp: bool,
}

/// Where a record of a file begins, and how many exchanges stand before it.
#[derive(Clone, Copy, Debug, PartialEq, Eq)]
pub struct Spot {
    pub byte: usize,
    pub before: u64,
}

/// The kind that has this number.
impl TryFrom<u16> for Kind {
    type Error = UnknownKind;

    ghost try_from_gives = { λ number r. MatchResult r (λ kind. kind_numbered number ≡ Some kind) (λ e. (kind_numbered number ≡ None) × (e.0 ≡ number)) };

    fn try_from(number: u16) -> Result<Self, UnknownKind> {
        match number {
            1 => Ok(Kind::Head),
            2 => Ok(Kind::Exchange),
            3 => Ok(Kind::End),
            4 => Ok(Kind::ShiftTotal),
            5 => Ok(Kind::LampTotal),
            _ => Err(UnknownKind(number)),
        }
    }
}

/// That no kind has this number.
impl fmt::Display for UnknownKind {
    ghost output = { λ u. Some (unknown_kind_text u.0) };

    fn fmt<W: fmt::Write>(&self, f: &mut fmt::Formatter<W>) -> fmt::Result {
        write!(f, "no kind of record has the number {}", self.0)
    }
}

impl Error for UnknownKind {}

impl Kind {
    /// The number that stands in a record of this kind.
    // The format's own number; the type is the enum, and `try_from` goes the other way.
    pub fn number(self) -> u16
        ensures { result ≡ kind_number self }
    {
        match self {
            Kind::Head => 1,
            Kind::Exchange => 2,
            Kind::End => 3,
            Kind::ShiftTotal => 4,
            Kind::LampTotal => 5,
        }
    }

    /// The length that stands in a record of this kind: of the kind's number and the body.
    // A match as in `number`: another column of the format's table (docs/FORMATS.md).
    pub fn length(self) -> u32
        ensures { result ≡ kind_length self }
    {
        match self {
            Kind::Head => 11,
            Kind::Exchange => 4,
            Kind::End => 10,
            Kind::ShiftTotal => 18,
            Kind::LampTotal => 10,
        }
    }
}

impl Total {
    /// The kind of the record that holds this total.
    pub fn kind(self) -> Kind
        ensures { result ≡ total_kind self }
    {
        match self {
            Total::Shift(_, _) => Kind::ShiftTotal,
            Total::Lamp(_) => Kind::LampTotal,
        }
    }
}

/// The kind of the total, then its numbers.
impl fmt::Display for Total {
    ghost output = { λ t. Some (total_text t) };

    fn fmt<W: fmt::Write>(&self, f: &mut fmt::Formatter<W>) -> fmt::Result {
        match *self {
            Total::Shift(across, along) => write!(f, "shift total {across} {along}"),
            Total::Lamp(word) => write!(f, "lamp total {word}"),
        }
    }
}

impl TotalKinds {
    /// Those of a list that has no total.
    pub const EMPTY: TotalKinds = TotalKinds {
        shift: false,
        lamp: false,
    };

    /// Whether there is no total.
    pub fn is_empty(self) -> bool
        ensures { (totals : List Total) → Marks self totals → result ≡ (length totals == 0) }
    {
        !self.shift && !self.lamp
    }

    /// Whether there is a total of this kind.
    pub fn has(self, total: Total) -> bool
        ensures { result ≡ is_marked self total }
    {
        match total {
            Total::Shift(_, _) => self.shift,
            Total::Lamp(_) => self.lamp,
        }
    }

    /// Those of the list with a total more.
    pub fn with(self, total: Total) -> TotalKinds
        ensures { (totals : List Total) → Marks self totals → Marks result (totals ++ total ∷ []) }
    {
        match total {
            Total::Shift(_, _) => TotalKinds {
                shift: true,
                ..self
            },
            Total::Lamp(_) => TotalKinds { lamp: true, ..self },
        }
    }
}

/// Whether 1 to `n` are labels, and no label of `start` is above them.
// Two numbers, as they stand in a record: a struct of both would be made only to be taken apart.
pub fn is_lawful_head(n: u8, start: u64) -> bool
    ensures { result ≡ lawful_head n start }
{
    n as usize <= LIMIT && start <= full_to(n)
}

impl Swap {
    /// Whether this exchange can follow the set `present` over the labels 1 to `n`.
    pub fn is_lawful(self, n: u8, present: u64) -> bool
        ensures { result ≡ lawful_swap n present self }
    {
        0 < self.low
            && self.low < self.high
            && self.high <= n
            && contains(present, self.high) != contains(present, self.low)
    }

    /// The set that it leads to from `present`; a label outside 1 to 64 changes nothing.
    pub fn after(self, present: u64) -> u64
        ensures lawful { (n : ℕ) → n ≤ limit → lawful_swap n present self ≡ true → result ≡ after present self }
        ensures any { result ≡ bit_xor present (bit_or (word_of self.high) (word_of self.low)) }
    {
        swapped(present, self.high, self.low)
    }
}

#[cfg(test)]
mod tests;
