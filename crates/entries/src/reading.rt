ghost use Rattle.std.specs.Prelude.{◌≡◌, ◌≤◌, length};
ghost use Rattle.entries.specs.Table.{entry_at, entry_or, values};
ghost use Rattle.labels.specs.Sets.{limit};

use crate::table::Entries;

impl<V: Copy> Entries<V> {
    /// How many labels have a value.
    pub fn len(&self) -> u8
        ensures is { result ≡ length (values self.now) }
        ensures few { result ≤ limit }
    {
        self.used
    }

    /// The value of `label`, if it has one.
    pub fn get(&self, label: u8) -> Option<V>
        ensures { result ≡ entry_at (values self.now) label }
    {
        let place = label.checked_sub(1)?;
        self.places[..self.used as usize]
            .get(place as usize)
            .copied()
    }

    /// The value of `label`, or `otherwise` where it has none.
    pub fn at(&self, label: u8, otherwise: V) -> V
        ensures { result ≡ entry_or (values self.now) otherwise label }
    {
        self.get(label).unwrap_or(otherwise)
    }
}
