ghost use Rattle.std.specs.Prelude.{◌≡◌, ◌<◌, MatchResult};
ghost use Rattle.roll.specs.View.{Appends, beyond, size};

use crate::lent::Roll;
use crate::refusal::RollRefusal;

impl<'a, T: Copy> Roll<'a, T> {
    /// An empty roll in this buffer.
    pub fn new(room: &'a mut [T]) -> Roll<'a, T>
        ensures empty { result.used ≡ 0 }
        ensures room { result.room.now ≡ room.old }
        ensures lender { result.room.ghost_name ≡ room.entry.ghost_name }
    {
        Roll { room, used: 0 }
    }

    /// Appends an entry. Refused, with nothing changed, exactly where no entry is free.
    pub fn append(&mut self, entry: T) -> Result<(), RollRefusal>
        ensures cases { MatchResult result
            (λ _. (self.old.used < size self.old) × Appends self.old self.new entry)
            (λ e. (e ≡ RollRefusal.Full)
            × (self.old.used ≡ size self.old)
            × (self.new.room.now ≡ self.old.room.now)
            × (self.new.used ≡ self.old.used)) }
        ensures added { self.old.used < size self.old → Appends self.old self.new entry }
        ensures beyond { beyond self.new.used self.new ≡ beyond self.new.used self.old }
        ensures size { size self.new ≡ size self.old }
        ensures lender { self.new.room.ghost_name ≡ self.old.room.ghost_name }
    {
        if self.used == self.room.len() {
            return Err(RollRefusal::Full);
        }
        self.room[self.used] = entry;
        self.used += 1;
        Ok(())
    }

    /// Gives the buffer back.
    pub fn into_room(self) -> &'a mut [T]
        ensures held { result.now ≡ self.entry.room.now }
        ensures lender { result.ghost_name ≡ self.entry.room.ghost_name }
    {
        let room = self.room;
        room
    }
}
