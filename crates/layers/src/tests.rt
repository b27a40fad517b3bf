ghost use Rattle.layer_laws.specs.Layers.{BaseOutside, minor, truncated};
ghost use Rattle.matroid_laws.specs.Matroids.{uniform};
ghost use Rattle.std.specs.Prelude.{◌≡◌, true, ◌↔◌};
ghost use Rattle.matroid_laws.proofs.Uniform.{uniform_is};
ghost use Rattle.std.proofs.Common.{rules};

use super::*;
use matroid::{Matroid, is_base};

/// Three labels, of which any two are independent, as the edges of a triangle.
#[derive(Drop)]
struct Triangle;

impl Matroid for Triangle {
    ghost size = { λ _. 3 };

    ghost independent = { λ _. uniform 3 2 };

    ghost few = { Prim.search rules };

    ghost matroid = { λ t. uniform_is 3 2 };

    fn size(&self) -> u8 {
        3
    }

    fn is_independent(&self, set: u64) -> bool {
        set < 8 && set.count_ones() <= 2
    }
}

/// What a caller knows of a dual's answer.
fn in_dual<P: Matroid + Drop>(below: P, set: u64) -> bool
    ensures { (result ≡ true) ↔ BaseOutside (P.Matroid.size below) (P.Matroid.independent below) set }
{
    Dual::new(below).is_independent(set)
}

/// What a caller knows of the answer of two layers.
fn in_pile<P: Matroid + Drop>(below: P, contracted: u64, deleted: u64, most: u64, set: u64) -> bool
    ensures { result ≡ truncated (minor (P.Matroid.size below) (P.Matroid.independent below) contracted deleted) most set }
{
    Truncation::new(Minor::new(below, contracted, deleted), most).is_independent(set)
}

/// The bases among the sets within 1 to 3, each as the bit at its number.
fn bases<M: Matroid>(matroid: &M) -> u64 {
    let mut found = 0;
    for set in 0..8u64 {
        if is_base(matroid, set) {
            found |= 1u64 << set;
        }
    }
    found
}

/// The bases {1, 2}, {1, 3} and {2, 3}.
const PAIRS: u64 = 1 << 0b011 | 1 << 0b101 | 1 << 0b110;

/// The bases {1}, {2} and {3}.
const SINGLES: u64 = 1 << 0b001 | 1 << 0b010 | 1 << 0b100;

#[test]
fn one_layer(rt: HostRuntime) {
    assert_eq!(rt; bases(&Triangle), PAIRS);
    assert_eq!(rt; bases(&Dual::new(Triangle)), SINGLES);
    assert_eq!(rt; bases(&Dual::new(Dual::new(Triangle))), PAIRS);
    assert_eq!(rt; bases(&Truncation::new(Triangle, 1)), SINGLES);
    assert_eq!(rt; bases(&Truncation::new(Triangle, u64::MAX)), PAIRS);
    assert_eq!(rt;
        bases(&Minor::new(Triangle, 0b100, 0)),
        1 << 0b001 | 1 << 0b010
    );
    assert_eq!(rt; bases(&Minor::new(Triangle, 0b111, 0)), 1 << 0b000);
    assert_eq!(rt; bases(&Minor::new(Triangle, 0, 0b100)), 1 << 0b011);
}

#[test]
fn answers(rt: HostRuntime) {
    assert!(rt; in_dual(Triangle, 0b001));
    assert!(rt; !in_dual(Triangle, 0b011));
    assert!(rt; in_pile(Triangle, 0b001, 0b010, 1, 0b100));
    assert!(rt; !in_pile(Triangle, 0b001, 0b010, 0, 0b100));
}

#[test]
fn three_layers(rt: HostRuntime) {
    let pile = Minor::new(Truncation::new(Dual::new(Triangle), 5), 0b001, 0b010);
    assert_eq!(rt; bases(&pile), 1 << 0b000);
    assert_eq!(rt; bases(pile.below()), SINGLES);
    assert_eq!(rt; bases(&pile.into_below().into_below().into_below()), PAIRS);
}
