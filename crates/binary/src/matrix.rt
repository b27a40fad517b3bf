ghost use Rattle.std.specs.Prelude.{◌≡◌, ℕ, ◌^◌, ◌<◌, ◌≤◌};
ghost use Rattle.labels.specs.Sets.{limit};
ghost use Rattle.binary_laws.specs.Elimination.{places};

/// A matrix over two elements with a column for each label: a word whose binary digits are the column's places.
/// There are `PLACES` of them at most, as many as elimination keeps room for.
pub trait BinaryMatrix<const PLACES: usize> {
    ghost width: { Self → ℕ };

    ghost column: { Self → ℕ → ℕ };

    /// How many columns there are.
    fn width(&self) -> u8
        ensures { result ≡ width self.now };

    /// The column of `label`.
    fn column(&self, label: u8) -> u64
        ensures { result ≡ column self.now label };

    ghost narrow: { (m : Self) → width m ≤ limit };

    ghost room: { PLACES ≤ places };

    // Of columns that are words: no other is ever answered.
    ghost low: { (m : Self) (e : ℕ) → column m e < 2 ^ places → column m e < 2 ^ PLACES };
}
