ghost use Rattle.binary_laws.specs.Binary.{NoEvenPart, binary, times};
ghost use Rattle.binary_matroid.specs.Columns.{column_at, columns};
ghost use Rattle.std.specs.Prelude.{◌≡◌, true, ◌↔◌, length};
ghost use Rattle.std.proofs.Math.Nat.{le_refl};
ghost use Rattle.entries.proofs.Places.{values_few};
ghost use Rattle.binary_laws.proofs.Laws.{binary_is};

use crate::matrix::Binary;
use binary::BinaryMatrix;
use matroid::Matroid;

/// A column has a place for each digit of a word.
const PLACES: usize = u64::BITS as usize;

/// The columns as they were added; a label without one has the column 0.
impl BinaryMatrix<PLACES> for Binary {
    ghost width = { λ m. length (columns m) };

    ghost column = { λ m. column_at (columns m) };

    ghost narrow = { λ m. values_few m.table };

    ghost room = { le_refl _ };

    ghost low = { λ m e low. low };

    fn width(&self) -> u8 {
        self.table.len()
    }

    fn column(&self, label: u8) -> u64 {
        self.table.at(label, 0)
    }
}

/// The matroid of the linearly independent sets of columns.
// Not one impl for every `BinaryMatrix`: the clause `odd` speaks of places here, and of points in `Graphic`.
impl Matroid for Binary {
    ghost size = { λ m. length (columns m) };

    ghost independent = { λ m. binary (length (columns m)) (column_at (columns m)) };

    ghost few = { λ m. values_few m.table };

    ghost matroid = { λ m. binary_is _ _ };

    fn size(&self) -> u8 {
        self.width()
    }

    /// Whether each part of `set`, but the empty one, meets some place an odd number of times.
    fn is_independent(&self, set: u64) -> bool
        ensures is { result ≡ binary (length (columns self.now)) (column_at (columns self.now)) set }
        ensures odd { (result ≡ true) ↔ NoEvenPart (length (columns self.now))
            (times (length (columns self.now)) (column_at (columns self.now))) set }
    {
        binary::is_independent(self, set)
    }
}
