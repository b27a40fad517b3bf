ghost use Rattle.favourite.specs.Choice.{favoured, is_candidate};
ghost use Rattle.std.specs.Prelude.{◌≡◌, refl};
ghost use Rattle.favourite.specs.ChoiceLemmas.{picks, idles};

use label_words::contains;
use tie_rule::{Closest, TieRule};

/// The rule that takes its favourite label where that is a candidate, and the closest one elsewhere. It keeps no state.
#[derive(Clone, Copy, Debug)]
pub struct Favourite {
    pub label: u8,
}

fn is_candidate(favourite: u8, label: u8, set: u64) -> bool
    ensures { result ≡ is_candidate favourite label set }
{
    favourite < label && contains(set, favourite)
}

impl TieRule for Favourite {
    ghost choice = { λ r e c. favoured r.label e c };

    ghost next = { λ r _ _. r };

    ghost lawful = { record {
      picks = λ r e c f l h. picks r.label e c f l h;
      idle = λ r e c none. (idles r.label e c none, refl);
    } };

    fn choose(&mut self, label: u8, set: u64) -> u8 {
        if is_candidate(self.label, label, set) {
            return self.label;
        }
        Closest.choose(label, set)
    }
}
