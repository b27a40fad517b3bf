ghost use Rattle.std.specs.Prelude.{◌≡◌, []};
ghost use Rattle.binary_matroid.specs.Columns.{columns};
ghost use Rattle.entries.specs.Table.{Adds};

use crate::matrix::Binary;
use entries::Entries;
use entry::EntryRefusal;

impl Binary {
    /// No columns yet.
    pub fn new() -> Binary
        ensures { columns result ≡ [] }
    {
        Binary {
            table: Entries::new(0),
        }
    }

    /// Adds the column of the next label: its places are the binary digits. Refused, with nothing changed, if there can be no such label.
    pub fn add(&mut self, column: u64) -> Result<(), EntryRefusal>
        ensures { Adds columns self.old column result self.new }
    {
        self.table.add(column)
    }
}
