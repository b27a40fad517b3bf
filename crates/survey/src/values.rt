//! What a reading gives: rows, or what is wrong.
ghost use Rattle.std.specs.Prelude.{◌≡◌};
ghost use Rattle.survey_laws.specs.Check.{wrong_number};
ghost use Rattle.survey.specs.View.{wrong_of};

/// Two points, and the shift from one to the other in arc seconds. The default fills the free places of a survey.
#[derive(Clone, Copy, Debug, Default, PartialEq, Eq)]
pub struct Row {
    /// One of the points, from 1.
    pub a: u8,
    /// Another of the points, from 1.
    pub b: u8,
    /// How far across.
    pub across: i64,
    /// How far along.
    pub along: i64,
}

/// What can be wrong with a text.
#[derive(Clone, Copy, Debug, PartialEq, Eq)]
pub enum Fault {
    /// More rows than there can be labels.
    TooManyRows,
    /// A row that is not made of the numbers that it should have.
    WrongForm,
    /// A number that is too small or too large.
    OutOfRange,
    /// A row with the same point twice.
    SamePoint,
    /// A pair of points that an earlier row has, either way round.
    RepeatedPair,
}

impl Fault {
    /// The number that the fault is reported by.
    // A number for output alone, by a method that reads better than `From` where it is called: the type is the enum.
    pub fn number(self) -> u8
        ensures { result ≡ wrong_number (wrong_of self) }
    {
        match self {
            Fault::WrongForm => 1,
            Fault::OutOfRange => 2,
            Fault::TooManyRows => 3,
            Fault::SamePoint => 4,
            Fault::RepeatedPair => 5,
        }
    }
}

/// The first thing that is wrong with a text, and the row that has it, where row 1 is the first of the file.
#[derive(Clone, Copy, Debug, PartialEq, Eq)]
pub struct Refusal {
    /// What is wrong.
    pub fault: Fault,
    /// The row that has it.
    pub row: u32,
}
