ghost use Rattle.std.specs.Prelude.{◌≡◌, ◌+◌, ◌≤◌};
ghost use Rattle.roll.specs.View.{beyond, size};
ghost use Rattle.walk.specs.Lists.{ListedOn, free};
ghost use Rattle.walk.specs.States.{Keeps, setting_of, state_of};

use crate::Walk;
use crate::roll_entry::Entry;
use matroid::Matroid;
use measure::Measure;
use roll::Roll;
use tie_rule::TieRule;
use walk_laws::Stop;

impl<P: Matroid, R: TieRule, M: Measure> Walk<P, R, M> {
    /// Advances while the roll has a free entry, and appends an entry for each exchange.
    /// Answers how many were appended, and why it stopped.
    pub fn list<E: Entry>(&mut self, roll: &mut Roll<E>) -> (u64, Stop)
        ensures keeps { Keeps self.old self.new }
        ensures listed { ListedOn (setting_of P.Matroid R.TieRule M.Measure self.old) E.Entry.entry (state_of self.old) roll.old result.0 result.1 (state_of self.new) roll.new }
        ensures counted { self.new.view.count ≡ self.old.view.count + result.0 }
        ensures full { result.1 ≡ Stop.Full → roll.new.used ≡ size roll.new }
        ensures used { roll.new.used ≡ roll.old.used + result.0 }
        ensures beyond { beyond roll.new.used roll.new ≡ beyond roll.new.used roll.old }
        ensures size { size roll.new ≡ size roll.old }
        ensures lender { roll.new.room.ghost_name ≡ roll.old.room.ghost_name }
    {
        let free = roll.free() as u64;
        for appended in 0..free {
            let Some(exchange) = self.advance() else {
                return (appended, Stop::Finished);
            };
            let _ = roll.append(E::entry(exchange, self.view.present));
        }
        (free, Stop::Full)
    }
}
