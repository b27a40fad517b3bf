ghost use Rattle.entry.specs.declared.EntryRefusal.TheVariants.{OutOfRange};
ghost use Rattle.partition.specs.Classes.{admitted, limits_fit};
ghost use Rattle.partition.specs.Held.{Extended, Unchanged, classes, limits as limits_of};
ghost use Rattle.std.specs.Prelude.{◌≡◌, true, false, [], length, is_ok, MatchResult};

use crate::classes::{CLASSES, Partition};
use crate::room::Room;
use entries::Entries;
use entry::EntryRefusal;
use label_words::inserted;

/// Whether no limit is above the number of labels that there can be.
fn limits_fit(limits: &[u8; CLASSES]) -> bool
    ensures { result ≡ limits_fit limits.now }
{
    limits.iter().all(|limit| *limit as usize <= labels::LIMIT)
}

impl Partition {
    /// No labels yet, and these limits for the classes 1, 2, .. in turn. Refused as out of range where a limit is above `labels::LIMIT`.
    pub fn new(limits: [u8; CLASSES]) -> Result<Partition, EntryRefusal>
        ensures answer { is_ok result ≡ limits_fit limits }
        ensures made { MatchResult result (λ p. (limits_of p ≡ limits) × (classes p ≡ [])) (λ e. e ≡ OutOfRange) }
    {
        if !limits_fit(&limits) {
            return Err(EntryRefusal::OutOfRange);
        }
        Ok(Partition {
            classes: Entries::new(0),
            rooms: limits.map(|limit| Room { limit, labels: 0 }),
        })
    }

    /// One label more, the next one, in `class`.
    /// Refused as out of range where there is no such class, and else as a label too many. A refusal changes nothing.
    pub fn add(&mut self, class: u8) -> Result<(), EntryRefusal>
        ensures answer { result ≡ admitted (length (classes self.old)) class }
        ensures added { is_ok result ≡ true → Extended self.old class self.new }
        ensures refused { is_ok result ≡ false → Unchanged self.old self.new }
    {
        if class == 0 || class as usize > CLASSES {
            return Err(EntryRefusal::OutOfRange);
        }
        self.classes.add(class)?;
        let label = self.classes.len();
        let index = class as usize - 1;
        self.rooms[index].labels = inserted(self.rooms[index].labels, label);
        Ok(())
    }
}
