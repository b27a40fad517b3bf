//! What holds of all chain files.
#![tactic(auto)]

ghost use Rattle.chain_laws.specs.Laws.{LawOfFiles};

/// A file holds at most one list, a list has one file, a file that holds a list is not refused, and one that is refused is so for
/// one reason, at one place, after one lawful beginning; the code does nothing.
pub fn files_hold()
    ensures law { LawOfFiles }
{}
