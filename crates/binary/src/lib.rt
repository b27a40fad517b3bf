//! Independence of the columns of a matrix over two elements, by elimination.
#![tactic(auto)]

mod matrix;

ghost use Rattle.binary_laws.specs.Binary.{binary};
ghost use Rattle.binary_laws.specs.Elimination.{Echelon, Grown, Leading, Vanishes, pivot};
ghost use Rattle.std.specs.Prelude.{suc, ◌≡◌, ◌^◌, ◌<◌, true, false};

use label_words::labels_of;
pub use matrix::BinaryMatrix;

/// The place of the highest digit of `word`, from 0.
fn highest_place(word: u64) -> u8
    requires { 0 < word }
    ensures { Leading word (suc result) }
{
    word.ilog2() as u8
}

/// Reduces `word` by the pivots, from its highest place down. What is left joins them at its highest place; false where nothing is left.
fn join<const PLACES: usize>(pivots: &mut [u64; PLACES], word: u64) -> bool
    requires low { word < 2 ^ PLACES }
    requires table { Echelon (pivot pivots.old) }
    ensures grown { result ≡ true → Grown pivots.old word pivots.new }
    ensures vanished { result ≡ false → Vanishes pivots.old word }
{
    let mut left = word;
    while left != 0 {
        let index = highest_place(left) as usize;
        let held = pivots[index];
        // A pivot has the digit of its place. If it were compared with 0, LLVM would make four instructions of the index, not one.
        if (held >> index) & 1 == 0 {
            pivots[index] = left;
            return true;
        }
        left ^= held;
    }
    false
}

/// Whether no part of `set` but the empty one has columns whose sum is 0; false where `set` has a label with no column.
// By itself: within the walk its loop would keep what it needs on the stack, not in registers.
#[inline(never)]
pub fn is_independent<const PLACES: usize, M: BinaryMatrix<PLACES>>(matrix: &M, set: u64) -> bool
    ensures { result ≡ binary (M.BinaryMatrix.width matrix.now) (M.BinaryMatrix.column matrix.now) set }
{
    if set >> matrix.width() != 0 {
        return false;
    }
    // One for each place of a column, and never another number of them; nothing here may ask for memory.
    let mut pivots = [0u64; PLACES];
    for label in labels_of(set) {
        if !join(&mut pivots, matrix.column(label)) {
            return false;
        }
    }
    true
}
