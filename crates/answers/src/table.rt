ghost use Rattle.std.specs.Prelude.{◌≡◌, length};
ghost use Rattle.labels.specs.Sets.{limit};

use crate::row::Row;
use labels::LIMIT;

/// What is known of the swaps of a set: of each label in it with each label outside it.
#[derive(Drop)]
pub struct Answers {
    pub(crate) rows: [Row; LIMIT],
    ghost whole: { length rows ≡ limit },
}
