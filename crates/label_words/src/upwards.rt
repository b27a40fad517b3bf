ghost use Rattle.std.specs.Prelude.{◌≡◌};
ghost use Rattle.std.specs.Iterator.{YieldsFirst, item_count};
ghost use Rattle.labels.specs.Listed.{labels_in};

use std::marker::Model;

/// The labels of a word, upwards, seen as the list of those that are left.
#[derive(Drop)]
pub struct Labels {
    rest: u64,
}

impl Model for Labels {
    ghost use Rattle.std.specs.Prelude.{ℕ, List};
    ghost use Rattle.labels.specs.Listed.{labels_in};

    ghost Value = { List ℕ };

    ghost view = { λ l. labels_in l.rest 64 };
}

/// The labels of `set`, upwards.
pub fn labels_of(set: u64) -> Labels
    ensures { result ≡ labels_in set 64 }
{
    Labels { rest: set }
}

impl Iterator for Labels {
    type Item = u8;

    ghost next_gives = { YieldsFirst (λ left. left) };

    ghost remaining = { item_count (λ left. left) };

    fn next(&mut self) -> Option<u8> {
        if self.rest == 0 {
            return None;
        }
        let label = self.rest.trailing_zeros() as u8 + 1;
        // Takes away the lowest bit, and need not wait for its place.
        self.rest &= self.rest - 1;
        Some(label)
    }
}
