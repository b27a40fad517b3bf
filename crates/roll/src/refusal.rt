ghost use Rattle.roll.specs.Numbers.{roll_number};
ghost use Rattle.std.specs.Prelude.{◌≡◌};

/// Why a roll refused an entry.
#[derive(Clone, Copy, Debug, PartialEq, Eq)]
pub enum RollRefusal {
    /// No entry of the buffer is free.
    Full,
}

impl RollRefusal {
    /// The number that this refusal is known by.
    // A number by a method that reads better than `From` where it is called: the type is the enum.
    pub fn number(self) -> u8
        ensures { result ≡ roll_number self }
    {
        match self {
            RollRefusal::Full => 11,
        }
    }
}
