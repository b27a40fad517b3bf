//! Small rigs, worked out by computing with the definitions that the contracts cite.
#![tactic(auto)]

ghost use Rattle.small_rigs.specs.Table.{SmallRigs};

/// What each rig of the table gives; the code does nothing.
pub fn small_rigs_hold()
    ensures { SmallRigs }
{}
