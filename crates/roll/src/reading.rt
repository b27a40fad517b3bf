ghost use Rattle.std.specs.Prelude.{◌≡◌, ◌-◌, ◌<◌, ◌≤◌, MatchOption, ◌==◌, slice_index_or};
ghost use Rattle.roll.specs.View.{filled, size};

use crate::lent::Roll;

impl<'a, T: Copy> Roll<'a, T> {
    /// How many entries there are.
    pub fn len(&self) -> usize
        ensures { result ≡ self.now.used }
    {
        self.used
    }

    /// How many entries are still free.
    pub fn free(&self) -> usize
        ensures { result ≡ size self.now - self.now.used }
    {
        self.room.len() - self.len()
    }

    /// Whether no entry is free.
    pub fn is_full(&self) -> bool
        ensures { result ≡ (self.now.used == size self.now) }
    {
        self.len() == self.room.len()
    }

    /// The entries, in the order in which they were appended.
    pub fn entries(&self) -> &[T]
        ensures { result.now ≡ filled self.now }
    {
        &self.room[..self.len()]
    }

    /// The entry at `position`, from 0 on; none where there is no entry yet.
    pub fn get(&self, position: usize) -> Option<T>
        ensures { MatchOption result
            (self.now.used ≤ position)
            (λ x. (position < self.now.used) × (x ≡ slice_index_or (filled self.now) position x)) }
    {
        self.entries().get(position).copied()
    }
}
