//! What holds of binary matroids, where each label carries a word, and of graphic ones, where it is an edge.
#![tactic(auto)]

ghost use Rattle.binary_laws.specs.Binary.{BinaryIs, BinaryMeans, BinaryOdd, EvenPlaces};
ghost use Rattle.binary_laws.specs.Graphic.{GraphicOdd};

/// Binary matroids meet the laws, and independence is what its definition says, in words and by parity; the code does nothing.
pub fn binary_matroids_hold()
    ensures is { BinaryIs }
    ensures means { BinaryMeans }
    ensures even { EvenPlaces }
    ensures odd { BinaryOdd }
    ensures graphic { GraphicOdd }
{}
