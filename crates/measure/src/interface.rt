ghost use Rattle.std.specs.Prelude.{◌≡◌, ℕ};
ghost use Rattle.measure.specs.Laws.{GroupLaws};

/// What labels are worth. The values form a group, so that a total can be kept up to date by adding what comes in
/// and the opposite of what goes out.
// Not `type Value: Group`, where the sum is the values' own: a measure of plain numbers would need a type of its own for them.
pub trait Measure {
    type Value: Copy;

    ghost zero: { Self.Value };

    ghost sum: { Self.Value → Self.Value → Self.Value };

    ghost opposite: { Self.Value → Self.Value };

    ghost worth: { Self → ℕ → Self.Value };

    /// The value that changes nothing.
    fn zero(&self) -> Self::Value
        ensures { result ≡ zero };

    /// The two values together.
    fn sum(&self, a: Self::Value, b: Self::Value) -> Self::Value
        ensures { result ≡ sum a b };

    /// The value that takes `a` back.
    fn opposite(&self, a: Self::Value) -> Self::Value
        ensures { result ≡ opposite a };

    /// What `label` is worth.
    fn worth(&self, label: u8) -> Self::Value
        ensures { result ≡ worth self.now label };

    ghost lawful: { GroupLaws zero sum opposite };
}
