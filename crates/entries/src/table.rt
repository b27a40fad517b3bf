ghost use Rattle.std.specs.Prelude.{◌≡◌, ◌≤◌, length};
ghost use Rattle.labels.specs.Sets.{limit};

use labels::LIMIT;

/// A value for each of the labels 1, 2, .. in turn, as they were added.
#[derive(Drop)]
pub struct Entries<V> {
    // An array with its length beside: `ArrayVec` asks for `Default`, and that of an edge would be a loop, by hand, with no meaning.
    pub(crate) places: [V; LIMIT],
    pub(crate) used: u8,
    ghost whole: { length places ≡ limit },
    ghost fits: { used ≤ limit },
}
