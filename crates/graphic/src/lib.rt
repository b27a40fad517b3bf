//! Graphic matroids: the labels are the edges of a graph, and a set of edges is independent where it is a forest.
#![tactic(auto)]

mod edge;
mod entering;
mod graph;
mod independence;

pub use graph::Graphic;
use matroid::Matroid;

#[cfg(test)]
mod tests {
    use super::*;
    use entry::{EntryRefusal, MOST_POINTS};
    use matroid::Matroid;
    use std::test::Fail;

    #[test]
    fn triangle_and_loop(rt: HostRuntime) -> Result<(), Fail> {
        let mut g = Graphic::new(3)?;
        g.add(1, 2)?;
        g.add(2, 3)?;
        g.add(1, 3)?;
        assert!(rt; g.is_independent(0b011));
        assert!(rt; !g.is_independent(0b111));
        assert!(rt; !g.is_independent(0b1000));
        g.add(2, 2)?;
        assert!(rt; !g.is_independent(0b1000));
        assert!(rt; g.is_independent(0b110));
        Ok(())
    }

    #[test]
    fn points_out_of_range(rt: HostRuntime) -> Result<(), Fail> {
        assert_eq!(rt; Graphic::new(0).err().map(EntryRefusal::number), Some(6));
        assert_eq!(rt;
            Graphic::new(MOST_POINTS + 1)
                .err()
                .map(EntryRefusal::number),
            Some(6)
        );
        let mut g = Graphic::new(3)?;
        assert_eq!(rt; g.add(0, 1).err().map(EntryRefusal::number), Some(6));
        assert_eq!(rt; g.add(1, 4).err().map(EntryRefusal::number), Some(6));
        assert!(rt; g.ends(1) == None);
        assert_eq!(rt; g.add(1, 3).err(), None);
        assert!(rt; g.ends(1) == Some((1, 3)));
        Ok(())
    }

    #[test]
    fn too_many_labels(rt: HostRuntime) -> Result<(), Fail> {
        let mut g = Graphic::new(MOST_POINTS)?;
        for _ in 0..labels::LIMIT {
            g.add(1, MOST_POINTS)?;
        }
        assert_eq!(rt; g.add(1, 2).err().map(EntryRefusal::number), Some(7));
        assert_eq!(rt;
            g.add(1, MOST_POINTS + 1).err().map(EntryRefusal::number),
            Some(6)
        );
        assert_eq!(rt; g.size() as usize, labels::LIMIT);
        Ok(())
    }
}
