ghost use Rattle.std.specs.Prelude.{◌≡◌, ℕ, ◌≤◌, ◌-◌, cond, ◌&&◌, slice_set};
ghost use Rattle.labels.specs.Sets.{has, limit};
ghost use Rattle.answer_laws.specs.Answers.{carried, none, noted};
ghost use Rattle.answers.specs.Table.{is_label, known, row_of};

use crate::row::{Row, with};
use crate::table::Answers;
use label_words::{contains, full_to, inserted, labels_of};
use labels::LIMIT;

/// Whether `label` has a row: whether it is one that there can be.
fn has_row(label: u8) -> bool
    ensures { result ≡ is_label label }
{
    (1..=LIMIT).contains(&(label as usize))
}

impl Answers {
    /// Nothing is known yet.
    pub fn new() -> Answers
        ensures { known result ≡ none }
    {
        Answers {
            rows: [Row::NOTHING; LIMIT],
        }
    }

    /// What is known of the swaps of `inside`, of the set, with the labels outside it.
    pub fn row(&self, inside: u8) -> Row
        ensures { result ≡ row_of self.now.rows inside }
    {
        if !has_row(inside) {
            return Row::NOTHING;
        }
        self.rows[inside as usize - 1]
    }

    /// What is known of the swaps of `outside` with the labels `insides` of the set.
    pub fn column(&self, outside: u8, insides: u64) -> Row
        ensures yes { (a : ℕ) → has result.yes a ≡ (has insides a && (known self.now).yes a outside) }
        ensures no { (a : ℕ) → has result.no a ≡ (has insides a && (known self.now).no a outside) }
    {
        let mut column = Row::NOTHING;
        for inside in labels_of(insides & full_to(LIMIT as u8)) {
            let row = self.row(inside);
            column.yes = with(column.yes, inside, contains(row.yes, outside));
            column.no = with(column.no, inside, contains(row.no, outside));
        }
        column
    }

    /// Puts another row in the place of that of `label`.
    fn put(&mut self, label: u8, row: Row)
        requires { (1 ≤ label) × (label ≤ limit) }
        ensures { self.new.rows ≡ slice_set self.old.rows (label - 1) row }
    {
        self.rows[label as usize - 1] = row;
    }

    /// Notes whether swapping `inside`, of the set, with `outside` leads to an independent set; nothing of labels that there cannot be.
    pub fn note(&mut self, inside: u8, outside: u8, answer: bool)
        ensures { known self.new ≡ cond (is_label inside && is_label outside) (noted (known self.old) inside outside answer) (known self.old) }
    {
        if has_row(inside) && has_row(outside) {
            self.put(inside, self.row(inside).noted(outside, answer));
        }
    }

    /// Keeps what is still known once `leaving` went out of `set` and `entering` came in; nothing changes where there cannot be such labels.
    pub fn carry(&mut self, set: u64, leaving: u8, entering: u8)
        ensures { known self.new ≡ cond (is_label leaving && is_label entering) (carried (known self.old) set leaving entering) (known self.old) }
    {
        if !has_row(leaving) || !has_row(entering) {
            return;
        }
        let gone = self.row(leaving);
        let two = inserted(inserted(0, leaving), entering);
        for label in labels_of(set & !two & full_to(LIMIT as u8)) {
            self.put(label, self.row(label).carried(gone, leaving, entering));
        }
        self.put(entering, gone.taken_over(leaving));
    }
}
