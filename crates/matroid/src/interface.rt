ghost use Rattle.std.specs.Prelude.{◌≡◌, ℕ, ◌≤◌, Bool};
ghost use Rattle.labels.specs.Sets.{limit};
ghost use Rattle.matroid_laws.specs.Matroids.{IsMatroid};

/// A matroid on the labels 1 to its size. Its meaning is the size and the family of its independent sets;
/// each implementation proves the laws for its own family, and code over any matroid uses them.
pub trait Matroid {
    ghost size: { Self → ℕ };

    ghost independent: { Self → ℕ → Bool };

    /// How many labels there are.
    fn size(&self) -> u8
        ensures { result ≡ size self.now };

    /// Whether `set` is independent.
    fn is_independent(&self, set: u64) -> bool
        ensures { result ≡ independent self.now set };

    ghost few: { (m : Self) → size m ≤ limit };

    ghost matroid: { (m : Self) → IsMatroid (size m) (independent m) };
}
