ghost use Rattle.measure.specs.Table.{worths_of};
ghost use Rattle.std.specs.Prelude.{◌≡◌, true, ◌↔◌, [], ◌∷◌, IfOk};

use crate::group::Group;
use crate::interface::Measure;
use crate::table::{Shifts, Worths};
use crate::value::{Shift, Word};
use entry::EntryRefusal;
use labels::LIMIT;
use std::test::Fail;

/// What a caller knows of a table of two values, whatever group they are of.
fn table_of<V: Group>(first: V, second: V) -> Result<Worths<V>, EntryRefusal>
    ensures { IfOk result (λ t. worths_of t ≡ first ∷ second ∷ []) }
{
    let mut table = Worths::new();
    table.add_worth(first)?;
    table.add_worth(second)?;
    Ok(table)
}

/// What a caller knows of two shifts that are compared.
fn same_shift(a: Shift, b: Shift) -> bool
    ensures { (result ≡ true) ↔ ((a.across ≡ b.across) × (a.along ≡ b.along)) }
{
    a == b
}

/// What a caller knows of two words that are compared.
fn same_word(a: Word, b: Word) -> bool
    ensures { (result ≡ true) ↔ (a.bits ≡ b.bits) }
{
    a == b
}

#[test]
fn compared(rt: HostRuntime) {
    let a = Shift {
        across: 3,
        along: -4,
    };
    assert!(rt; same_shift(a, a));
    assert!(rt;
        !same_shift(
            a,
            Shift {
                across: 3,
                along: 4,
            },
        )
    );
    assert!(rt; same_word(Word { bits: 6 }, Word { bits: 6 }));
    assert!(rt; !same_word(Word { bits: 6 }, Word { bits: 2 }));
}

#[test]
fn values_of_any_group(rt: HostRuntime) -> Result<(), Fail> {
    let table = table_of(Word { bits: 6 }, Word { bits: 2 })?;
    assert_eq!(rt; table.len(), 2);
    assert_eq!(rt; table.worth(1), Word { bits: 6 });
    assert_eq!(rt; table.worth(2), Word { bits: 2 });
    assert_eq!(rt; table.worth(3), table.zero());
    Ok(())
}

#[test]
fn one_value_too_many(rt: HostRuntime) -> Result<(), Fail> {
    let mut shifts = Shifts::new();
    let worth = Shift {
        across: 1,
        along: 2,
    };
    for _ in 0..LIMIT {
        shifts.add_worth(worth)?;
    }
    let refused = shifts.add_worth(worth).err();
    assert_eq!(rt; refused.map(EntryRefusal::number), Some(7));
    assert_eq!(rt; shifts.len(), LIMIT);
    Ok(())
}
