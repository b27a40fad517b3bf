ghost use Rattle.measure.specs.Shifts.{entries_of, shift_of, shift_opposite, shift_sum, shift_zero};
ghost use Rattle.entries.specs.Table.{Adds};
ghost use Rattle.std.specs.Prelude.{◌≡◌};
ghost use Rattle.measure.specs.Group.{shifts_group};

use crate::group::Group;
use crate::table::Shifts;
use crate::value::Shift;
use entry::EntryRefusal;

impl Group for Shift {
    ghost zero = { shift_zero };

    ghost sum = { shift_sum };

    ghost opposite = { shift_opposite };

    ghost lawful = { shifts_group };

    fn zero() -> Shift {
        Shift {
            across: 0,
            along: 0,
        }
    }

    fn sum(self, other: Shift) -> Shift {
        Shift {
            across: self.across.wrapping_add(other.across),
            along: self.along.wrapping_add(other.along),
        }
    }

    fn opposite(self) -> Shift {
        Shift {
            across: self.across.wrapping_neg(),
            along: self.along.wrapping_neg(),
        }
    }
}

impl Shifts {
    /// Adds the shift of the next label. Refused, with nothing changed, if there can be no such label.
    // Beside `add_worth`, which takes a value: who adds has two numbers, and would have to make the value first.
    pub fn add(&mut self, across: i64, along: i64) -> Result<(), EntryRefusal>
        ensures cases { Adds entries_of self.old (shift_of across along) result self.new }
        ensures same { ((shift_of across along).across ≡ across) × ((shift_of across along).along ≡ along) }
    {
        self.table.add(Shift { across, along })
    }
}

#[cfg(test)]
mod tests {
    use super::*;
    use crate::Measure;
    use labels::LIMIT;
    use std::test::Fail;

    #[test]
    fn sums_wrap(rt: HostRuntime) {
        let shifts = Shifts::new();
        let a = Shift {
            across: i64::MAX,
            along: -3,
        };
        let b = Shift {
            across: 1,
            along: 5,
        };
        assert_eq!(rt;
            shifts.sum(a, b),
            Shift {
                across: i64::MIN,
                along: 2,
            }
        );
        assert_eq!(rt; shifts.sum(a, shifts.opposite(a)), shifts.zero());
    }

    #[test]
    fn entries_in_order(rt: HostRuntime) -> Result<(), Fail> {
        let mut shifts = Shifts::new();
        shifts.add(3, -4)?;
        shifts.add(5, 6)?;
        assert_eq!(rt; shifts.len(), 2);
        assert_eq!(rt; shifts.worth(0), shifts.zero());
        assert_eq!(rt;
            shifts.worth(1),
            Shift {
                across: 3,
                along: -4,
            }
        );
        assert_eq!(rt;
            shifts.worth(2),
            Shift {
                across: 5,
                along: 6,
            }
        );
        assert_eq!(rt; shifts.worth(3), shifts.zero());
        assert_eq!(rt; shifts.worth(77), shifts.zero());
        Ok(())
    }

    #[test]
    fn one_too_many(rt: HostRuntime) -> Result<(), Fail> {
        let mut shifts = Shifts::new();
        for _ in 0..LIMIT {
            shifts.add(1, 1)?;
        }
        assert_eq!(rt; shifts.add(1, 1).err().map(EntryRefusal::number), Some(7));
        Ok(())
    }
}
