ghost use Rattle.std.specs.Prelude.{◌+◌, ◌^◌, ◌≤◌};
ghost use Rattle.labels.specs.Sets.{limit};
ghost use Rattle.answer_laws.specs.Answers.{Right};
ghost use Rattle.answers.specs.Table.{known};
ghost use Rattle.matroid_laws.specs.Matroids.{Base};

use answers::Answers;
use matroid::Matroid;
use measure::Measure;
use tie_rule::TieRule;
use walk_laws::View;

/// A walk: its matroid, tie rule and measure, and what it shows of itself. The present set is a base, from the beginning on and
/// after every call. The bound makes the count safe and every walk end.
pub struct Walk<P: Matroid, R: TieRule, M: Measure> {
    pub(crate) matroid: P,
    pub(crate) rule: R,
    pub(crate) measure: M,
    pub(crate) view: View<M::Value>,
    // What is known of the present set's swaps: it saves most questions, and decides nothing.
    pub(crate) answers: Answers,
    ghost bounded: { view.count + view.active ≤ 2 ^ limit },
    ghost based: { Base (P.Matroid.size matroid) (P.Matroid.independent matroid) view.present },
    ghost right: { Right (P.Matroid.independent matroid) view.present (known answers) },
}
