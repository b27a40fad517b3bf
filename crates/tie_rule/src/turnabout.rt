ghost use Rattle.labels.specs.Sets.{differs, highest_below};
ghost use Rattle.tie_rule.specs.Candidates.{lowest_below, some_below};
ghost use Rattle.std.specs.Prelude.{◌≡◌, false, if◌then◌else◌};
ghost use Rattle.tie_rule.specs.Turns.{taken, turn_picks, turn_idle};

use crate::closest::Closest;
use crate::furthest::Furthest;
use crate::rule::TieRule;

/// The rule that takes the closest and the furthest candidate by turns. Where there is no candidate, the turn stays.
#[derive(Clone, Copy, Debug)]
pub struct Turnabout {
    /// Whether the next choice takes the furthest candidate.
    // A flag by itself: it is the whole state, and no value hangs on it.
    pub far: bool,
}

impl Turnabout {
    /// The rule whose first choice takes the closest candidate.
    pub fn new() -> Turnabout
        ensures { result.far ≡ false }
    {
        Turnabout { far: false }
    }

    /// What the next choice takes, or 0.
    fn take(&self, label: u8, set: u64) -> u8
        ensures { result ≡ taken self.now.far label set }
    {
        if self.far {
            Furthest.choose(label, set)
        } else {
            Closest.choose(label, set)
        }
    }
}

impl TieRule for Turnabout {
    ghost choice = { λ r e c. (if r.far then lowest_below e c else highest_below e c) };

    ghost next = { λ r e c. record { far = differs (some_below e c) r.far } };

    ghost lawful = { record { picks = turn_picks; idle = turn_idle } };

    fn choose(&mut self, label: u8, set: u64) -> u8 {
        let choice = self.take(label, set);
        if choice != 0 {
            self.far = !self.far;
        }
        choice
    }
}

#[cfg(test)]
mod tests {
    use super::*;

    #[test]
    fn takes_turns(rt: HostRuntime) {
        let mut rule = Turnabout::new();
        assert_eq!(rt; rule.choose(5, 0b1111), 4);
        assert_eq!(rt; rule.choose(5, 0b1111), 1);
        assert_eq!(rt; rule.choose(5, 0b1010), 4);
        assert_eq!(rt; rule.choose(2, 0b1010), 0);
        assert_eq!(rt; rule.choose(5, 0b1010), 2);
        assert!(rt; !rule.far);
    }
}
