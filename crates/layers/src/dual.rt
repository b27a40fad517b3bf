ghost use Rattle.std.specs.Prelude.{◌≡◌, ℕ, true, ◌↔◌};
ghost use Rattle.layer_laws.specs.Layers.{BaseOutside, dual};
ghost use Rattle.layer_laws.proofs.Dual.{dual_is, dual_means};

use crate::kind::LayerKind;
use crate::layer::Layer;
use label_words::full_to;
use matroid::{Matroid, greedy, none_joins};

/// The kind of layer whose bases are the complements of the bases below.
#[derive(Clone, Copy, Debug)]
pub struct Complement;

/// The dual: a set is independent where the labels outside it contain a base of the matroid below.
pub type Dual<P> = Layer<P, Complement>;

impl<P: Matroid> Dual<P> {
    /// The dual of the matroid below.
    // The clause `below` stands in `new` of each layer: it speaks of the argument, which is moved away, so that no invariant can say it.
    pub fn new(below: P) -> Dual<P>
        ensures below { result.below ≡ below }
        ensures family { (s : ℕ) → (dual (P.Matroid.size result.below) (P.Matroid.independent result.below) s ≡ true)
            ↔ BaseOutside (P.Matroid.size below) (P.Matroid.independent below) s }
    {
        Layer {
            below,
            kind: Complement,
        }
    }
}

impl LayerKind for Complement {
    ghost family = { λ _ n f. dual n f };

    ghost means = { λ _ n f s. BaseOutside n f s };

    ghost lawful = { record { is_matroid = λ _ n f M. dual_is n f M; is_meant = λ _ n f M s. dual_means n f M s } };

    /// Asks once below for each label: whether it joins what is kept of the labels outside `set`, or, where it is in `set`,
    /// whether it could still join all that is kept of them.
    fn is_independent<P: Matroid>(&self, below: &P, set: u64) -> bool {
        let all = full_to(below.size());
        if set > all {
            return false;
        }
        let held = greedy(below, all & !set);
        none_joins(below, set, held)
    }
}
