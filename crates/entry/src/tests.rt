ghost use Rattle.std.specs.Prelude.{◌≡◌, true, ◌↔◌};

use super::*;
use std::test::Fail;

/// What a caller knows of two refusals that are compared.
fn same(a: EntryRefusal, b: EntryRefusal) -> bool
    ensures { (result ≡ true) ↔ (a ≡ b) }
{
    a == b
}

#[test]
fn compared(rt: HostRuntime) {
    assert!(rt; same(EntryRefusal::OutOfRange, EntryRefusal::OutOfRange));
    assert!(rt; !same(EntryRefusal::OutOfRange, EntryRefusal::TooManyLabels));
}

#[test]
fn in_words(rt: HostRuntime) -> Result<(), Fail> {
    let range = EntryRefusal::OutOfRange.to_string(rt.alloc())?;
    assert_eq!(rt; range.as_str(), "out of range");
    let many = EntryRefusal::TooManyLabels.to_string(rt.alloc())?;
    assert_eq!(rt; many.as_str(), "a label too many");
    Ok(())
}
