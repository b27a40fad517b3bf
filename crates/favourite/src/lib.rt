//! A tie rule of one's own, as docs/OWN_RULE.md builds it, and a walk by it.
#![tactic(auto)]

mod rule;

pub use rule::Favourite;
use tie_rule::TieRule;

#[cfg(test)]
mod tests {
    use super::*;
    use graphic::Graphic;
    use measure::Shifts;
    use std::test::Fail;
    use tie_rule::TieRule;
    use walk::Walk;

    #[test]
    fn takes_the_favourite_or_the_closest(rt: HostRuntime) {
        let mut rule = Favourite { label: 2 };
        assert_eq!(rt; rule.choose(5, 0b1010), 2);
        assert_eq!(rt; rule.choose(5, 0b1100), 4);
        assert_eq!(rt; rule.choose(2, 0b0011), 1);
        assert_eq!(rt; rule.choose(2, 0b1010), 0);
        assert_eq!(rt; rule.choose(0, u64::MAX), 0);
    }

    #[test]
    fn lists_the_triangle(rt: HostRuntime) -> Result<(), Fail> {
        let mut graphic = Graphic::new(3)?;
        graphic.add(1, 2)?;
        graphic.add(2, 3)?;
        graphic.add(1, 3)?;
        let mut walk = Walk::begin(graphic, Favourite { label: 1 }, Shifts::new(), 0, u64::MAX);
        let first = walk.look().present;
        let _ = walk.advance();
        let second = walk.look().present;
        let _ = walk.advance();
        let third = walk.look().present;
        let last = walk.advance();
        let view = walk.close().view;
        assert_eq!(rt; first, 0b011);
        assert_eq!(rt; second, 0b110);
        assert_eq!(rt; third, 0b101);
        assert!(rt; last.is_none());
        assert_eq!(rt; view.count, 3);
        Ok(())
    }
}
