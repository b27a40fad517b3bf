//! Partition matroids, in theory: each label lies in a class, and a set is independent where it has no more labels of a class than the class's limit.
#![tactic(auto)]

ghost use Rattle.partition_laws.specs.Partition.{PartitionIs, PartitionMeans};

/// Partition matroids meet the laws, and independence is what its definition says; the code does nothing.
pub fn partition_matroids_hold()
    ensures is { PartitionIs }
    ensures means { PartitionMeans }
{}
