ghost use Rattle.std.specs.Prelude.{◌≡◌, true, ◌↔◌};
ghost use Rattle.std.proofs.Common.{rules};

use crate::kind::LayerKind;
use matroid::Matroid;

/// A layer of some kind over a matroid, which is again a matroid.
#[derive(Drop)]
pub struct Layer<P: Matroid, K: LayerKind> {
    pub(crate) below: P,
    pub(crate) kind: K,
}

impl<P: Matroid, K: LayerKind> Layer<P, K> {
    /// The matroid below.
    pub fn below(&self) -> &P
        ensures { result.now ≡ self.now.below }
    {
        &self.below
    }

    /// Takes the layer off: the matroid below, as it was.
    pub fn into_below(self) -> P
        ensures { result ≡ self.below }
    {
        self.below
    }
}

impl<P: Matroid, K: LayerKind> Matroid for Layer<P, K> {
    ghost size = { λ l. P.Matroid.size l.below };

    ghost independent = { λ l. K.family l.kind (P.Matroid.size l.below) (P.Matroid.independent l.below) };

    ghost few = { Prim.search rules };

    ghost matroid = { λ l. K.lawful.is_matroid l.kind (P.Matroid.size l.below) (P.Matroid.independent l.below) (P.Matroid.matroid l.below) };

    /// As many labels as below.
    fn size(&self) -> u8
        ensures { result ≡ P.Matroid.size self.now.below }
    {
        self.below.size()
    }

    /// Asks the kind of layer.
    fn is_independent(&self, set: u64) -> bool
        ensures is { result ≡ K.family self.now.kind (P.Matroid.size self.now.below) (P.Matroid.independent self.now.below) set }
        ensures means { (result ≡ true) ↔ K.means self.now.kind (P.Matroid.size self.now.below) (P.Matroid.independent self.now.below) set }
    {
        self.kind.is_independent(&self.below, set)
    }
}
