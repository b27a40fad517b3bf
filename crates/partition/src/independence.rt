ghost use Rattle.partition.specs.Classes.{InLimits, limited, class_count, class_at, limit_at};
ghost use Rattle.partition.specs.Held.{classes, limits};
ghost use Rattle.std.specs.Prelude.{◌≡◌, true, ◌↔◌, length};
ghost use Rattle.entries.proofs.Places.{values_few};
ghost use Rattle.partition_laws.proofs.Classes.{partition_is};

use crate::classes::Partition;
use matroid::Matroid;

/// The matroid of the sets that keep to the limits.
impl Matroid for Partition {
    ghost size = { λ p. length (classes p) };

    ghost independent = { λ p. limited (classes p) (limits p) };

    ghost few = { λ p. values_few p.classes };

    ghost matroid = { λ p. partition_is (length (classes p)) class_count (class_at (classes p)) (limit_at (limits p)) };

    fn size(&self) -> u8 {
        self.classes.len()
    }

    /// Whether `set` has no more labels of a class than the class's limit, and only labels that there are.
    fn is_independent(&self, set: u64) -> bool
        ensures is { result ≡ limited (classes self.now) (limits self.now) set }
        ensures limits { (result ≡ true) ↔ InLimits (classes self.now) (limits self.now) set }
    {
        if set >> self.size() != 0 {
            return false;
        }
        for room in &self.rooms {
            if (set & room.labels).count_ones() as u8 > room.limit {
                return false;
            }
        }
        true
    }
}
