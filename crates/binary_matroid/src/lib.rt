//! Binary matroids: each label has a column of 64 places over two elements, and a set of labels is independent where no part of it,
//! but the empty one, meets every place an even number of times.
#![tactic(auto)]

mod columns;
mod independence;
mod matrix;

use binary::BinaryMatrix;
pub use matrix::Binary;
use matroid::Matroid;

#[cfg(test)]
mod tests {
    use super::*;
    use binary::BinaryMatrix;
    use entry::EntryRefusal;
    use matroid::Matroid;
    use std::test::Fail;

    #[test]
    fn triangle(rt: HostRuntime) -> Result<(), Fail> {
        let mut matrix = Binary::new();
        matrix.add(0b01)?;
        matrix.add(0b10)?;
        matrix.add(0b11)?;
        assert_eq!(rt; matrix.column(3), 0b11);
        assert_eq!(rt; matroid::rank(&matrix, 0b111), 2);
        assert!(rt; matroid::is_base(&matrix, 0b011));
        assert!(rt; matroid::is_base(&matrix, 0b101));
        assert!(rt; matroid::is_base(&matrix, 0b110));
        assert!(rt; !matrix.is_independent(0b111));
        assert!(rt; !matrix.is_independent(0b1000));
        matrix.add(0)?;
        assert!(rt; !matrix.is_independent(0b1000));
        Ok(())
    }

    #[test]
    fn too_many_labels(rt: HostRuntime) -> Result<(), Fail> {
        let mut matrix = Binary::new();
        for _ in 0..labels::LIMIT {
            matrix.add(u64::MAX)?;
        }
        assert_eq!(rt; matrix.add(1).err().map(EntryRefusal::number), Some(7));
        Ok(())
    }
}
