ghost use Rattle.std.specs.Prelude.{◌≡◌, ◌+◌, if◌then◌else◌, nat_eq, refl};
ghost use Rattle.tie_rule.specs.Candidates.{lowest_below};
ghost use Rattle.std.specs.Int.Count.{count_trailing_zeros};
ghost use Rattle.tie_rule.specs.Lowest.{lowest_below_is, lowest_below_none};

use crate::closest::below;
use crate::rule::TieRule;

/// The lowest label of `set`, or 0.
fn lowest(set: u64) -> u8
    ensures { result ≡ (if nat_eq set 0 then 0 else count_trailing_zeros 64 set + 1) }
{
    if set == 0 {
        return 0;
    }
    set.trailing_zeros() as u8 + 1
}

/// The rule that takes the candidate furthest from the label: the lowest one. It keeps no state.
#[derive(Clone, Copy, Debug)]
pub struct Furthest;

impl TieRule for Furthest {
    ghost choice = { λ _ e c. lowest_below e c };

    ghost next = { λ r _ _. r };

    ghost lawful = { record {
      picks = λ _ e c f l h. lowest_below_is e c f l h;
      idle = λ _ e c none. (lowest_below_none e c none, refl);
    } };

    fn choose(&mut self, label: u8, set: u64) -> u8 {
        lowest(below(label, set))
    }
}

#[cfg(test)]
mod tests {
    use super::*;

    #[test]
    fn takes_the_lowest_below(rt: HostRuntime) {
        let mut rule = Furthest;
        assert_eq!(rt; rule.choose(0, u64::MAX), 0);
        assert_eq!(rt; rule.choose(1, u64::MAX), 0);
        assert_eq!(rt; rule.choose(200, 1 << 63), 64);
        assert_eq!(rt; rule.choose(64, 1 << 63), 0);
        assert_eq!(rt; rule.choose(200, 0b1010), 2);
        assert_eq!(rt; rule.choose(2, 0b1010), 0);
    }
}
