//! What a walk has learned of its present set: which labels of it can be swapped with which outside it, and what of that is still known after a swap.
#![tactic(auto)]

mod noting;
mod row;
mod table;

pub use row::Row;
pub use table::Answers;

#[cfg(test)]
mod tests {
    use super::*;

    /// Three labels of which each two are a base: the set 1, 2 leads to the set 1, 3.
    #[test]
    fn two_of_three(rt: HostRuntime) {
        let mut answers = Answers::new();
        assert_eq!(rt; answers.row(1).yes | answers.row(1).no, 0);
        answers.note(1, 3, true);
        answers.note(2, 3, true);
        assert_eq!(rt; answers.row(2).yes, 0b100);
        let column = answers.column(3, 0b011);
        assert_eq!(rt; column.yes, 0b011);
        assert_eq!(rt; column.no, 0);
        answers.carry(0b011, 2, 3);
        let column = answers.column(2, 0b101);
        assert_eq!(rt; column.yes, 0b101);
    }

    /// Labels 1 and 2 are never together in a base of the three: the set 1, 3 leads to the set 2, 3.
    #[test]
    fn two_alike(rt: HostRuntime) {
        let mut answers = Answers::new();
        answers.note(1, 2, true);
        answers.note(3, 2, false);
        answers.carry(0b101, 1, 2);
        let row = answers.row(3);
        assert_eq!(rt; row.yes & 0b001, 0);
        assert_eq!(rt; row.no & 0b001, 0b001);
        answers.note(0, 1, true);
        answers.note(49, 1, true);
        assert_eq!(rt; answers.row(49).yes, 0);
    }
}
