//! What is known of the swaps of a set of labels, and what of it is still known after one of them.
#![tactic(auto)]

ghost use Rattle.answer_laws.specs.Answers.{CarriedRight, NoneRight, NotedRight};

/// Answers that are right stay right: those that are carried over a swap, and one more; the code does nothing.
pub fn answers_hold()
    ensures none { NoneRight }
    ensures noted { NotedRight }
    ensures carried { CarriedRight }
{}
