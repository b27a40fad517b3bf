ghost use Rattle.std.specs.Prelude.{◌≡◌, ℕ, ◌<◌, ◌≤◌, true, MatchOption};
ghost use Rattle.labels.specs.Sets.{has, swap};
ghost use Rattle.answer_laws.specs.Answers.{Right};
ghost use Rattle.answers.specs.Table.{known};
ghost use Rattle.walk.specs.States.{Movable, partners};

use answers::Answers;
use label_words::{contains, full_to, inserted, labels_of, swapped};
use matroid::Matroid;

/// Asks whether swapping `inside`, of the set `present`, with `outside` leads to an independent set, and notes the answer.
fn ask<P: Matroid>(
    matroid: &P,
    answers: &mut Answers,
    present: u64,
    inside: u8,
    outside: u8,
) -> bool
    requires known { Right (P.Matroid.independent matroid.now) present (known answers.old) }
    requires inside { (1 ≤ inside) × (inside ≤ 64) }
    requires outside { (1 ≤ outside) × (outside ≤ 64) }
    ensures answer { result ≡ P.Matroid.independent matroid.now (swap present inside outside) }
    ensures known { Right (P.Matroid.independent matroid.now) present (known answers.new) }
{
    let answer = matroid.is_independent(swapped(present, inside, outside));
    answers.note(inside, outside, answer);
    answer
}

/// The labels below `label` on the other side of the set `present` that it can be swapped with.
/// The matroid is asked only of those of which it is not known.
fn candidates<P: Matroid>(matroid: &P, answers: &mut Answers, present: u64, label: u8) -> u64
    requires label { (1 ≤ label) × (label ≤ 64) }
    requires known { Right (P.Matroid.independent matroid.now) present (known answers.old) }
    ensures found { result ≡ partners (P.Matroid.independent matroid.now) present label }
    ensures known { Right (P.Matroid.independent matroid.now) present (known answers.new) }
{
    let came = !contains(present, label);
    let side = if came { present } else { !present };
    let others = side & full_to(label - 1);
    let known = if came {
        answers.column(label, others)
    } else {
        answers.row(label)
    };
    let mut found = known.yes & others;
    for other in labels_of(others & !(known.yes | known.no)) {
        let (inside, outside) = if came { (other, label) } else { (label, other) };
        if ask(matroid, answers, present, inside, outside) {
            found = inserted(found, other);
        }
    }
    found
}

/// The labels before the first that is on the other side than label 1: none of them has a label below it on the other side.
fn alike(present: u64) -> u64
    ensures { (d o : ℕ) → has result d ≡ true → 1 ≤ o → o < d → has present o ≡ has present d }
{
    let changes = present ^ (present >> 1);
    full_to(changes.trailing_zeros() as u8 + 1)
}

/// The lowest of the labels `active` that has a candidate, with its candidates.
pub(crate) fn movable<P: Matroid>(
    matroid: &P,
    answers: &mut Answers,
    present: u64,
    active: u64,
) -> Option<(u8, u64)>
    requires known { Right (P.Matroid.independent matroid.now) present (known answers.old) }
    ensures found { MatchOption result
        ((d : ℕ) → 1 ≤ d → d ≤ P.Matroid.size matroid.now → has active d ≡ true → partners (P.Matroid.independent matroid.now) present d ≡ 0)
        (λ x. Movable (P.Matroid.size matroid.now) (P.Matroid.independent matroid.now) present active x.0 x.1) }
    ensures known { Right (P.Matroid.independent matroid.now) present (known answers.new) }
{
    let promising = active & !alike(present);
    for label in labels_of(promising & full_to(matroid.size())) {
        let found = candidates(matroid, answers, present, label);
        if found != 0 {
            return Some((label, found));
        }
    }
    None
}
