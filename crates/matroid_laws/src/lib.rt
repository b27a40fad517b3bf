//! What holds of every matroid: its bases, exchanges, ranks, and the start of a walk.
#![tactic(auto)]

ghost use Rattle.matroid_laws.specs.Greedy.{GreedyRanks, StartsAtBase};
ghost use Rattle.matroid_laws.specs.Matroids.{ExchangeIn, ExchangeOut, ListedBases, OneCard, TestedBases, UniformIs};

/// The laws of bases hold of every matroid; the code does nothing.
pub fn bases_hold()
    ensures tested { TestedBases }
    ensures listed { ListedBases }
    ensures card { OneCard }
    ensures out { ExchangeOut }
    ensures into { ExchangeIn }
    ensures starts { StartsAtBase }
    ensures ranks { GreedyRanks }
    ensures uniform { UniformIs }
{}
