ghost use Rattle.std.specs.Prelude.{◌≡◌, ℕ, ◌≤◌, true, ◌↔◌};
ghost use Rattle.labels.specs.Sets.{card};
ghost use Rattle.layer_laws.specs.Layers.{truncated};
ghost use Rattle.layer_laws.proofs.Truncation.{truncation_is, truncation_means};

use crate::kind::LayerKind;
use crate::layer::Layer;
use matroid::Matroid;

/// The kind of layer that caps the number of labels.
#[derive(Clone, Copy, Debug)]
pub struct Cap {
    most: u64,
}

/// The independent sets below that have at most so many labels.
pub type Truncation<P> = Layer<P, Cap>;

impl<P: Matroid> Truncation<P> {
    /// Caps the sets of the matroid below at `most` labels; a number of at least all labels caps nothing.
    // The clause `below` stands in `new` of each layer: it speaks of the argument, which is moved away, so that no invariant can say it.
    pub fn new(below: P, most: u64) -> Truncation<P>
        ensures below { result.below ≡ below }
        ensures most { result.kind.most ≡ most }
        ensures family { (s : ℕ) → (truncated (P.Matroid.independent result.below) result.kind.most s ≡ true)
            ↔ ((P.Matroid.independent below s ≡ true) × (card s ≤ most)) }
    {
        Layer {
            below,
            kind: Cap { most },
        }
    }
}

impl LayerKind for Cap {
    ghost family = { λ k _ f. truncated f k.most };

    ghost means = { λ k _ f s. (f s ≡ true) × (card s ≤ k.most) };

    ghost lawful = { record { is_matroid = λ k n f M. truncation_is n f k.most M; is_meant = λ k _ f _ s. truncation_means f k.most s } };

    /// Asks below once, and not at all of a set with too many labels.
    fn is_independent<P: Matroid>(&self, below: &P, set: u64) -> bool {
        u64::from(set.count_ones()) <= self.most && below.is_independent(set)
    }
}
