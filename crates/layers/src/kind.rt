ghost use Rattle.std.specs.Prelude.{◌≡◌, ℕ, Bool};
ghost use Rattle.layer_laws.specs.Layers.{LayerLaws};

use matroid::Matroid;

/// What a layer makes of the matroid below. Its meaning is the family that it makes of a family below, and which sets
/// are in it; each kind proves that it makes a matroid of a matroid.
pub trait LayerKind: Copy {
    ghost family: { Self → ℕ → (ℕ → Bool) → ℕ → Bool };

    ghost means: { Self → ℕ → (ℕ → Bool) → ℕ → Type 0 };

    /// Whether `set` is independent in the layer over the matroid `below`.
    fn is_independent<P: Matroid>(&self, below: &P, set: u64) -> bool
        ensures { result ≡ family self.now (P.Matroid.size below.now) (P.Matroid.independent below.now) set };

    ghost lawful: { LayerLaws family means };
}
