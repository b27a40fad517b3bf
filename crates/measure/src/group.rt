ghost use Rattle.std.specs.Prelude.{◌≡◌};
ghost use Rattle.measure.specs.Laws.{GroupLaws};

/// Values that form a group. Each type of them proves the laws for its own sum, and a table of them is a measure.
pub trait Group: Copy {
    ghost zero: { Self };

    ghost sum: { Self → Self → Self };

    ghost opposite: { Self → Self };

    /// The value that changes nothing.
    fn zero() -> Self
        ensures { result ≡ zero };

    /// The two values together.
    fn sum(self, other: Self) -> Self
        ensures { result ≡ sum self other };

    /// The value that takes this one back.
    fn opposite(self) -> Self
        ensures { result ≡ opposite self };

    ghost lawful: { GroupLaws zero sum opposite };
}
