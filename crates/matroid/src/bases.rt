ghost use Rattle.labels.specs.Sets.{card, no_label};
ghost use Rattle.matroid_laws.specs.Greedy.{joins, extended, greedy as greedy_of, start as start_of};
ghost use Rattle.matroid_laws.specs.Matroids.{Base, Rank, is_base};
ghost use Rattle.std.specs.Prelude.{◌≡◌, true, ◌↔◌};

use crate::Matroid;
use label_words::{full_to, inserted, labels_of};

/// Goes through the labels of `set` upwards and keeps each that leaves the kept set independent, from `first` on.
fn extend<M: Matroid>(matroid: &M, set: u64, first: u64) -> u64
    ensures { result ≡ extended (M.Matroid.independent matroid.now) set first (M.Matroid.size matroid.now) }
{
    let mut held = first;
    for label in labels_of(set & full_to(matroid.size())) {
        let more = inserted(held, label);
        if matroid.is_independent(more) {
            held = more;
        }
    }
    held
}

/// Goes through the labels of `set` upwards from the empty set, and keeps each that leaves the kept set independent.
pub fn greedy<M: Matroid>(matroid: &M, set: u64) -> u64
    ensures { result ≡ greedy_of (M.Matroid.size matroid.now) (M.Matroid.independent matroid.now) set }
{
    extend(matroid, set, 0)
}

/// The rank of `set`: the number of labels of its largest independent part.
pub fn rank<M: Matroid>(matroid: &M, set: u64) -> u8
    ensures { Rank (M.Matroid.independent matroid.now) set result }
{
    greedy(matroid, set).count_ones() as u8
}

/// Whether no label of `set` can join `held` so that an independent set comes of it.
pub fn none_joins<M: Matroid>(matroid: &M, set: u64, held: u64) -> bool
    ensures { result ≡ no_label (joins (M.Matroid.independent matroid.now) set held) (M.Matroid.size matroid.now) }
{
    for label in labels_of(set & full_to(matroid.size())) {
        if matroid.is_independent(inserted(held, label)) {
            return false;
        }
    }
    true
}

/// Whether `set` is a base: independent, with no label that could join it.
pub fn is_base<M: Matroid>(matroid: &M, set: u64) -> bool
    ensures tested { result ≡ is_base (M.Matroid.size matroid.now) (M.Matroid.independent matroid.now) set }
    ensures base { (result ≡ true) ↔ Base (M.Matroid.size matroid.now) (M.Matroid.independent matroid.now) set }
{
    matroid.is_independent(set) && none_joins(matroid, !set, set)
}

/// The start for an offered set: through that set upwards, then through all labels upwards, each kept that leaves
/// the kept set independent. It is always a base.
pub fn start<M: Matroid>(matroid: &M, offered: u64) -> u64
    ensures greedy { result ≡ start_of (M.Matroid.size matroid.now) (M.Matroid.independent matroid.now) offered }
    ensures base { Base (M.Matroid.size matroid.now) (M.Matroid.independent matroid.now) result }
{
    let kept = greedy(matroid, offered);
    extend(matroid, full_to(matroid.size()), kept)
}
