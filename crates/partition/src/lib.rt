//! Partition matroids: each label lies in one of a few classes, each class has a limit, and a set of labels is independent where it has
//! no more labels of a class than the class's limit.
#![tactic(auto)]

mod classes;
mod entering;
mod independence;
mod room;

pub use classes::{CLASSES, Partition};
use matroid::Matroid;

#[cfg(test)]
mod tests {
    use super::*;
    use entry::EntryRefusal;
    use matroid::Matroid;
    use std::test::Fail;

    #[test]
    fn two_of_the_first_and_none_of_the_last(rt: HostRuntime) -> Result<(), Fail> {
        let mut p = Partition::new([2, 1, 48, 48, 48, 48, 48, 0])?;
        p.add(1)?;
        p.add(1)?;
        p.add(1)?;
        p.add(2)?;
        p.add(8)?;
        assert!(rt; p.is_independent(0b01011));
        assert!(rt; p.is_independent(0b01110));
        assert!(rt; !p.is_independent(0b00111));
        assert!(rt; !p.is_independent(0b10000));
        assert!(rt; !p.is_independent(0b100000));
        assert!(rt; matroid::is_base(&p, 0b01101));
        Ok(())
    }

    #[test]
    fn refusals(rt: HostRuntime) -> Result<(), Fail> {
        assert_eq!(rt;
            Partition::new([0, 0, 0, 0, 0, 0, 0, 49])
                .err()
                .map(EntryRefusal::number),
            Some(6)
        );
        let mut p = Partition::new([48; CLASSES])?;
        assert_eq!(rt; p.add(0).err().map(EntryRefusal::number), Some(6));
        assert_eq!(rt; p.add(9).err().map(EntryRefusal::number), Some(6));
        for _ in 0..labels::LIMIT {
            p.add(8)?;
        }
        assert_eq!(rt; p.add(9).err().map(EntryRefusal::number), Some(6));
        assert_eq!(rt; p.add(1).err().map(EntryRefusal::number), Some(7));
        assert_eq!(rt; p.size() as usize, labels::LIMIT);
        Ok(())
    }
}
