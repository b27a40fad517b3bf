//! What a walk answers, and the law of its whole life.
#![tactic(auto)]

ghost use Rattle.walk_laws.specs.Steps.{entering, leaving};
ghost use Rattle.std.specs.Prelude.{◌≡◌};

/// Two labels change sides: the higher one came in and the lower one went out, or the other way round.
#[derive(Clone, Copy, Debug, PartialEq, Eq)]
pub struct Exchange {
    pub high: u8,
    pub low: u8,
    // A flag and no enum with labels in it: programs take the higher label and then the lower one, and would need a match for that.
    pub came: bool,
}

/// Why a list stopped: its roll was full, or the walk was finished.
#[derive(Clone, Copy, Debug, PartialEq, Eq)]
pub enum Stop {
    Full,
    Finished,
}

/// What a walk holds beside its matroid, tie rule and measure.
#[derive(Clone, Copy, Debug, PartialEq, Eq)]
pub struct View<V> {
    pub present: u64,
    pub active: u64,
    pub count: u64,
    pub value: V,
    pub total: V,
}

impl Exchange {
    /// The label that comes in.
    pub fn entering(self) -> u8
        ensures { result ≡ entering self }
    {
        if self.came { self.high } else { self.low }
    }

    /// The label that goes out.
    pub fn leaving(self) -> u8
        ensures { result ≡ leaving self }
    {
        if self.came { self.low } else { self.high }
    }
}
