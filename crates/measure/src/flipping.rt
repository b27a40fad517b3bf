ghost use Rattle.measure.specs.Words.{word_opposite, word_sum, word_with, word_zero, words_of};
ghost use Rattle.entries.specs.Table.{Adds};
ghost use Rattle.std.specs.Prelude.{◌≡◌};
ghost use Rattle.measure.specs.Flips.{words_group};

use crate::group::Group;
use crate::table::Words;
use crate::value::Word;
use entry::EntryRefusal;

impl Group for Word {
    ghost zero = { word_zero };

    ghost sum = { word_sum };

    ghost opposite = { word_opposite };

    ghost lawful = { words_group };

    fn zero() -> Word {
        Word { bits: 0 }
    }

    fn sum(self, other: Word) -> Word {
        Word {
            bits: self.bits ^ other.bits,
        }
    }

    fn opposite(self) -> Word {
        self
    }
}

impl Words {
    /// Adds the word of the next label. Refused, with nothing changed, if there can be no such label.
    // Beside `add_worth`, as for shifts: who adds has a number, and would have to make the value first.
    pub fn add(&mut self, bits: u64) -> Result<(), EntryRefusal>
        ensures { Adds words_of self.old (word_with bits) result self.new }
    {
        self.table.add(Word { bits })
    }
}

#[cfg(test)]
mod tests {
    use super::*;
    use crate::Measure;
    use labels::LIMIT;
    use std::test::Fail;

    #[test]
    fn flipped_twice(rt: HostRuntime) -> Result<(), Fail> {
        let mut words = Words::new();
        words.add(0b0110)?;
        words.add(u64::MAX)?;
        assert_eq!(rt; words.len(), 2);
        assert_eq!(rt;
            words.sum(words.worth(1), Word { bits: 0b0011 }),
            Word { bits: 0b0101 }
        );
        assert_eq!(rt;
            words.sum(words.worth(2), words.opposite(words.worth(2))),
            words.zero()
        );
        assert_eq!(rt; words.worth(0), words.zero());
        assert_eq!(rt; words.worth(3), words.zero());
        Ok(())
    }

    #[test]
    fn one_too_many(rt: HostRuntime) -> Result<(), Fail> {
        let mut words = Words::new();
        for _ in 0..LIMIT {
            words.add(1)?;
        }
        assert_eq!(rt; words.add(1).err().map(EntryRefusal::number), Some(7));
        Ok(())
    }
}
