ghost use Rattle.std.specs.Prelude.{◌≡◌, []};
ghost use Rattle.entries.specs.Table.{Adds, values};

use crate::table::Entries;
use entry::EntryRefusal;
use labels::LIMIT;

impl<V: Copy> Entries<V> {
    /// No entries yet. The places that are free hold `filler`, which is never answered.
    // By itself: put into its caller, it would have the compiler copy all places there, field by field.
    #[inline(never)]
    pub fn new(filler: V) -> Entries<V>
        ensures { values result ≡ [] }
    {
        Entries {
            places: [filler; LIMIT],
            used: 0,
        }
    }

    /// Adds the value of the next label. Refused, with nothing changed, if there can be no such label.
    pub fn add(&mut self, value: V) -> Result<(), EntryRefusal>
        ensures { Adds values self.old value result self.new }
    {
        if self.used as usize == LIMIT {
            return Err(EntryRefusal::TooManyLabels);
        }
        self.places[self.used as usize] = value;
        self.used += 1;
        Ok(())
    }
}
