ghost use Rattle.std.specs.Prelude.{◌≡◌, ◌+◌, ◌≤◌, [], Some, MatchOption};
ghost use Rattle.labels.specs.Sets.{limit};
ghost use Rattle.walk_laws.specs.Law.{LawOfLife, SameAsG};
ghost use Rattle.walk_laws.specs.Lives.{Call, advanced, handed, looked, view_of};
ghost use Rattle.walk_laws.specs.Settings.{summed};
ghost use Rattle.walk_laws.specs.Steps.{after, begun, exchange_at, step, value_after};
ghost use Rattle.walk.specs.States.{Keeps, Movable, setting, setting_of, state_of};

use crate::candidates::movable;
use crate::{Parts, Walk};
use answers::Answers;
use label_words::{contains, full_to, labels_of, reopened, swapped};
use matroid::{Matroid, start};
use measure::Measure;
use tie_rule::TieRule;
use walk_laws::{Exchange, View};

/// The value of `set`: the sum of the worths of its labels among 1 to `n`.
fn value_of<M: Measure>(measure: &M, set: u64, n: u8) -> M::Value
    requires { n ≤ limit }
    ensures { result ≡ summed M.Measure.zero M.Measure.sum (M.Measure.worth measure.now) set n }
{
    let mut value = measure.zero();
    for label in labels_of(set & full_to(n)) {
        value = measure.sum(value, measure.worth(label));
    }
    value
}

impl<P: Matroid, R: TieRule, M: Measure> Walk<P, R, M> {
    /// Begins a walk at the start for the offered set, with those labels active that were opened and that the matroid has,
    /// and hands out the start. What holds of its whole life, whatever calls follow, is the law.
    pub fn begin(matroid: P, rule: R, measure: M, offered: u64, opened: u64) -> Walk<P, R, M>
        ensures matroid { result.matroid ≡ matroid }
        ensures measure { result.measure ≡ measure }
        ensures begun { state_of result ≡ begun (setting P.Matroid R.TieRule M.Measure matroid measure) offered opened rule }
        ensures law { LawOfLife (setting P.Matroid R.TieRule M.Measure matroid measure) offered opened rule }
        ensures algorithm { SameAsG (setting P.Matroid R.TieRule M.Measure matroid measure) offered opened rule }
    {
        let n = matroid.size();
        let present = start(&matroid, offered);
        let value = value_of(&measure, present, n);
        Walk {
            matroid,
            rule,
            measure,
            view: View {
                present,
                active: opened & full_to(n),
                count: 1,
                value,
                total: value,
            },
            answers: Answers::new(),
        }
    }

    /// The five fields; nothing changes.
    pub fn look(&self) -> View<M::Value>
        ensures { result ≡ view_of (state_of self.now) }
    {
        self.view
    }

    /// The value after an exchange: it gains the worth that comes in and the opposite of the one that goes out.
    fn value_after(&self, exchange: Exchange) -> M::Value
        ensures { result ≡ value_after (setting_of P.Matroid R.TieRule M.Measure self.now) (state_of self.now) exchange }
    {
        let gained = self
            .measure
            .sum(self.view.value, self.measure.worth(exchange.entering()));
        self.measure.sum(
            gained,
            self.measure
                .opposite(self.measure.worth(exchange.leaving())),
        )
    }

    /// Makes the exchange at the active label `label`, with one of the candidates `found`.
    fn exchange(&mut self, label: u8, found: u64) -> Exchange
        requires { Movable (P.Matroid.size self.old.matroid) (P.Matroid.independent self.old.matroid) self.old.view.present self.old.view.active label found }
        ensures keeps { Keeps self.old self.new }
        ensures answer { result ≡ exchange_at (setting_of P.Matroid R.TieRule M.Measure self.old) (state_of self.old) label found }
        ensures after { state_of self.new ≡ after (setting_of P.Matroid R.TieRule M.Measure self.old) (state_of self.old) label found }
        ensures step { step (setting_of P.Matroid R.TieRule M.Measure self.old) (state_of self.old) ≡ (Some result, state_of self.new) }
    {
        let came = !contains(self.view.present, label);
        let low = self.rule.choose(label, found);
        let exchange = Exchange {
            high: label,
            low,
            came,
        };
        let value = self.value_after(exchange);
        let present = self.view.present;
        self.answers
            .carry(present, exchange.leaving(), exchange.entering());
        let view = &mut self.view;
        view.present = swapped(view.present, label, low);
        view.active = reopened(view.active, label);
        view.count += 1;
        view.value = value;
        view.total = self.measure.sum(view.total, value);
        exchange
    }

    /// Advances by one exchange, at the lowest active label that has a candidate; none where the walk is finished.
    // Not an `Iterator`: its clauses speak of the walk before and after, and other calls come between.
    pub fn advance(&mut self) -> Option<Exchange>
        ensures keeps { Keeps self.old self.new }
        ensures step { step (setting_of P.Matroid R.TieRule M.Measure self.old) (state_of self.old) ≡ (result, state_of self.new) }
        ensures call { Call (setting_of P.Matroid R.TieRule M.Measure self.old) (state_of self.old) (advanced result) (handed result (state_of self.new)) (state_of self.new) }
        ensures cases { MatchOption result (state_of self.new ≡ state_of self.old) (λ _. self.new.view.count ≡ self.old.view.count + 1) }
    {
        let View {
            present,
            active,
            ..
        } = self.view;
        let (label, found) = movable(&self.matroid, &mut self.answers, present, active)?;
        Some(self.exchange(label, found))
    }

    /// Takes the walk apart, and gives back all that it held.
    pub fn close(self) -> Parts<P, R, M, M::Value>
        ensures matroid { result.matroid ≡ self.matroid }
        ensures rule { result.rule ≡ self.rule }
        ensures measure { result.measure ≡ self.measure }
        ensures view { result.view ≡ view_of (state_of self) }
    {
        let Walk {
            matroid,
            rule,
            measure,
            view,
            answers: _,
        } = self;
        Parts {
            matroid,
            rule,
            measure,
            view,
        }
    }
}
