ghost use Rattle.std.specs.Prelude.{◌≡◌, ◌≤◌, ◌∷◌, length, drop};

use super::*;
use std::test::Fail;

/// Lends a buffer to a roll; afterwards the lender holds the two entries, and what it held beyond them.
fn lend<T: Copy>(buffer: &mut [T], first: T, second: T)
    ensures { 2 ≤ length buffer.old → buffer.new ≡ first ∷ second ∷ drop 2 buffer.old }
{
    let mut roll = Roll::new(buffer);
    let _ = roll.append(first);
    let _ = roll.append(second);
}

#[derive(Clone, Copy, Debug, PartialEq)]
struct Pair {
    left: u8,
    right: bool,
}

#[test]
fn numbers(rt: HostRuntime) -> Result<(), Fail> {
    let mut buffer = [0u64; 3];
    let mut roll = Roll::new(&mut buffer);
    assert_eq!(rt; roll.get(0), None);
    roll.append(5)?;
    roll.append(6)?;
    assert_eq!(rt; roll.len(), 2);
    assert_eq!(rt; roll.free(), 1);
    assert!(rt; !roll.is_full());
    assert_eq!(rt; roll.get(1), Some(6));
    assert_eq!(rt; roll.get(2), None);
    roll.append(7)?;
    assert!(rt; roll.is_full());
    assert_eq!(rt; roll.append(8).err().map(RollRefusal::number), Some(11));
    assert_eq!(rt; roll.into_room()[2], 7);
    Ok(())
}

#[test]
fn entries_in_order(rt: HostRuntime) -> Result<(), Fail> {
    let mut buffer = [9u64; 3];
    let mut roll = Roll::new(&mut buffer);
    assert!(rt; roll.entries().is_empty());
    roll.append(5)?;
    roll.append(6)?;
    assert!(rt; roll.entries() == [5, 6].as_slice());
    Ok(())
}

#[test]
fn lent(rt: HostRuntime) {
    let none = Pair {
        left: 0,
        right: false,
    };
    let one = Pair {
        left: 1,
        right: true,
    };
    let two = Pair {
        left: 2,
        right: false,
    };
    let mut buffer = [none; 3];
    lend(&mut buffer, one, two);
    assert_eq!(rt; buffer, [one, two, none]);
}
