ghost use Rattle.entries.specs.Table.{Adds};
ghost use Rattle.std.specs.Prelude.{◌≡◌, [], length};
ghost use Rattle.measure.specs.Table.{worth_at, worths_of};

use crate::group::Group;
use crate::interface::Measure;
use crate::table::Worths;
use entries::Entries;
use entry::EntryRefusal;

impl<V: Group> Worths<V> {
    /// No values yet.
    pub fn new() -> Worths<V>
        ensures { worths_of result ≡ [] }
    {
        Worths {
            table: Entries::new(V::zero()),
        }
    }

    /// Adds what the next label is worth. Refused, with nothing changed, if there can be no such label.
    pub fn add_worth(&mut self, worth: V) -> Result<(), EntryRefusal>
        ensures { Adds worths_of self.old worth result self.new }
    {
        self.table.add(worth)
    }

    /// How many labels have a value.
    pub fn len(&self) -> usize
        ensures { result ≡ length (worths_of self.now) }
    {
        usize::from(self.table.len())
    }
}

impl<V: Group> Measure for Worths<V> {
    type Value = V;

    ghost zero = { V.zero };

    ghost sum = { V.sum };

    ghost opposite = { V.opposite };

    ghost worth = { λ m e. worth_at V.zero (worths_of m) e };

    ghost lawful = { V.lawful };

    fn zero(&self) -> V {
        V::zero()
    }

    fn sum(&self, a: V, b: V) -> V {
        a.sum(b)
    }

    fn opposite(&self, a: V) -> V {
        a.opposite()
    }

    fn worth(&self, label: u8) -> V {
        self.table.at(label, V::zero())
    }
}
