ghost use Rattle.std.specs.Prelude.{◌≡◌, ℕ, ◌≤◌, cond, not, ◌==◌, ◌&&◌, ◌||◌};
ghost use Rattle.labels.specs.Sets.{has};

use label_words::{contains, inserted};

/// What is known of the swaps of one label, in the set or outside it: the labels with which one leads to an independent set, and those with which it does not.
#[derive(Clone, Copy, Debug)]
pub struct Row {
    pub yes: u64,
    pub no: u64,
}

/// All labels or none.
fn all(held: bool) -> u64
    ensures { result ≡ cond held 18446744073709551615 0 }
{
    if held { u64::MAX } else { 0 }
}

/// `set` with `label`, or without it.
// The compiler makes no branch of this, nor of `all`: rows are carried for each label of the set at each exchange, where no branch would be foreseen.
pub(crate) fn with(set: u64, label: u8, held: bool) -> u64
    requires { (1 ≤ label) × (label ≤ 64) }
    ensures { (b : ℕ) → has result b ≡ cond (b == label) held (has set b) }
{
    let one = inserted(0, label);
    set & !one | (held as u64) << (label - 1)
}

impl Row {
    /// Nothing is known.
    pub(crate) const NOTHING: Row = Row { yes: 0, no: 0 };

    /// The same, and what the swap with `outside` leads to.
    pub(crate) fn noted(self, outside: u8, answer: bool) -> Row
        requires { (1 ≤ outside) × (outside ≤ 64) }
        ensures yes { (b : ℕ) → has result.yes b ≡ cond (b == outside) answer (has self.yes b) }
        ensures no { (b : ℕ) → has result.no b ≡ cond (b == outside) (not answer) (has self.no b) }
    {
        Row {
            yes: with(self.yes, outside, answer),
            no: with(self.no, outside, !answer),
        }
    }

    /// The row of the label that came in, from that of the label `leaving`, which it took the place of.
    pub(crate) fn taken_over(self, leaving: u8) -> Row
        requires { (1 ≤ leaving) × (leaving ≤ 64) }
        ensures yes { (b : ℕ) → has result.yes b ≡ (b == leaving || has self.yes b) }
        ensures no { (b : ℕ) → has result.no b ≡ (not (b == leaving) && has self.no b) }
    {
        self.noted(leaving, true)
    }

    /// What is still known of another label, once `leaving`, with the row `gone`, was swapped with `entering`.
    pub(crate) fn carried(self, gone: Row, leaving: u8, entering: u8) -> Row
        requires { (1 ≤ leaving) × (leaving ≤ 64) }
        ensures yes { (b : ℕ) → has result.yes b ≡ cond (b == leaving) (has self.yes entering) (has self.yes b && (has self.no entering || has gone.no b) || has self.yes entering && (has gone.yes b && has self.no b)) }
        ensures no { (b : ℕ) → has result.no b ≡ cond (b == leaving) (has self.no entering) (has self.no b && (has self.no entering || has gone.no b)) }
    {
        let yes = contains(self.yes, entering);
        let no = contains(self.no, entering);
        let stays = all(no) | gone.no;
        let turns = all(yes) & gone.yes & self.no;
        Row {
            yes: with(self.yes & stays | turns, leaving, yes),
            no: with(self.no & stays, leaving, no),
        }
    }
}
