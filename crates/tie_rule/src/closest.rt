ghost use Rattle.labels.specs.Sets.{has, highest_below};
ghost use Rattle.std.specs.Prelude.{◌≡◌, ℕ, ◌-◌, ◌&&◌, nat_lt, refl};
ghost use Rattle.std.specs.Int.Count.{count_leading_zeros};
ghost use Rattle.labels.proofs.Passing.{highest_below_is, highest_below_none};

use crate::rule::TieRule;
use label_words::full_to;

/// The labels of `set` below `label`.
pub(crate) fn below(label: u8, set: u64) -> u64
    ensures { (f : ℕ) → has result f ≡ (nat_lt f label && has set f) }
{
    set & full_to(label.saturating_sub(1))
}

/// The highest label of `set`, or 0.
fn highest(set: u64) -> u8
    ensures { result ≡ 64 - count_leading_zeros 64 set }
{
    (u64::BITS - set.leading_zeros()) as u8
}

/// The rule that takes the candidate closest to the label: the highest one. It keeps no state.
// Not one type with `Furthest`: a trait for highest or lowest would be `TieRule` again, and an alias is no value, as callers write `Closest`.
#[derive(Clone, Copy, Debug)]
pub struct Closest;

impl TieRule for Closest {
    ghost choice = { λ _ e c. highest_below e c };

    ghost next = { λ r _ _. r };

    ghost lawful = { record {
      picks = λ _ e c f l h. highest_below_is e c f l h;
      idle = λ _ e c none. (highest_below_none e c none, refl);
    } };

    fn choose(&mut self, label: u8, set: u64) -> u8 {
        highest(below(label, set))
    }
}

#[cfg(test)]
mod tests {
    use super::*;

    #[test]
    fn takes_the_highest_below(rt: HostRuntime) {
        let mut rule = Closest;
        assert_eq!(rt; rule.choose(0, u64::MAX), 0);
        assert_eq!(rt; rule.choose(1, u64::MAX), 0);
        assert_eq!(rt; rule.choose(64, u64::MAX), 63);
        assert_eq!(rt; rule.choose(65, u64::MAX), 64);
        assert_eq!(rt; rule.choose(200, 0b1010), 4);
        assert_eq!(rt; rule.choose(4, 0b1010), 2);
        assert_eq!(rt; rule.choose(2, 0b1010), 0);
    }
}
