ghost use Rattle.std.specs.Prelude.{◌≡◌, ℕ, bit_or};
ghost use Rattle.layer_laws.specs.Layers.{InMinor, minor, pinned};
ghost use Rattle.matroid_laws.specs.Greedy.{greedy as greedy_of};
ghost use Rattle.layer_laws.proofs.Minor.{pinned_is, pinned_means};

use crate::kind::LayerKind;
use crate::layer::Layer;
use matroid::{Matroid, greedy};

/// The kind of layer that takes some labels for granted and removes some.
#[derive(Clone, Copy, Debug)]
pub struct Pins {
    held: u64,
    removed: u64,
}

/// A minor: some labels are contracted, so that what can be held of them is taken for granted, and some are deleted.
pub type Minor<P> = Layer<P, Pins>;

impl<P: Matroid> Minor<P> {
    /// Contracts and deletes labels of the matroid below; a label in both sets is contracted, and one above its size changes nothing.
    /// A set is independent where it has none of these labels and is independent below together with the contracted labels that are held:
    /// going through them upwards, each that leaves the held set independent.
    // The clause `below` stands in `new` of each layer: it speaks of the argument, which is moved away, so that no invariant can say it.
    pub fn new(below: P, contracted: u64, deleted: u64) -> Minor<P>
        ensures below { result.below ≡ below }
        ensures held { result.kind.held ≡ greedy_of (P.Matroid.size below) (P.Matroid.independent below) contracted }
        ensures removed { result.kind.removed ≡ bit_or contracted deleted }
        ensures family { (s : ℕ) → pinned (P.Matroid.independent result.below) result.kind.held result.kind.removed s
            ≡ minor (P.Matroid.size below) (P.Matroid.independent below) contracted deleted s }
    {
        let held = greedy(&below, contracted);
        let removed = contracted | deleted;
        Layer {
            below,
            kind: Pins { held, removed },
        }
    }
}

impl LayerKind for Pins {
    ghost family = { λ k _ f. pinned f k.held k.removed };

    ghost means = { λ k _ f s. InMinor f k.held k.removed s };

    ghost lawful = { record { is_matroid = λ k n f M. pinned_is n f k.held k.removed M; is_meant = λ k _ f _ s. pinned_means f k.held k.removed s } };

    /// Asks below once at most.
    fn is_independent<P: Matroid>(&self, below: &P, set: u64) -> bool {
        set == 0 || set & self.removed == 0 && below.is_independent(set | self.held)
    }
}
