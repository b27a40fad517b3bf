use super::*;
use std::alloc::Global;
use std::test::Fail;

/// Whether a total is printed as this text.
fn is_shown(heap: Global, total: Total, text: &str) -> Result<bool, fmt::Error> {
    Ok(total.to_string(heap)?.as_str() == text)
}

#[test]
fn lamp_totals(rt: HostRuntime) -> Result<(), Fail> {
    let last = "lamp total 18446744073709551615";
    assert!(rt; is_shown(rt.alloc(), Total::Lamp(u64::MAX), last)?);
    // The least number of each length, and the one before it.
    let mut least = 1u64;
    for _ in 0..20u8 {
        for word in [least, least.wrapping_sub(1)] {
            let text = format!(in rt.alloc(); "lamp total {word}")?;
            assert!(rt; is_shown(rt.alloc(), Total::Lamp(word), text.as_str())?);
        }
        least = least.wrapping_mul(10);
    }
    Ok(())
}

#[test]
fn shift_totals(rt: HostRuntime) -> Result<(), Fail> {
    let ends = "shift total -9223372036854775808 9223372036854775807";
    assert!(rt; is_shown(rt.alloc(), Total::Shift(i64::MIN, i64::MAX), ends)?);
    let mut least = 1i64;
    for _ in 0..19u8 {
        let before = least.wrapping_sub(1);
        for (across, along) in [
            (least, before.wrapping_neg()),
            (least.wrapping_neg(), before),
            (before, least),
        ] {
            let text = format!(in rt.alloc(); "shift total {across} {along}")?;
            assert!(rt; is_shown(rt.alloc(), Total::Shift(across, along), text.as_str())?);
        }
        least = least.wrapping_mul(10);
    }
    Ok(())
}

#[test]
fn unknown_kinds(rt: HostRuntime) -> Result<(), Fail> {
    for number in 0..=u16::MAX {
        let text = UnknownKind(number).to_string(rt.alloc())?;
        let wanted = format!(in rt.alloc(); "no kind of record has the number {number}")?;
        assert_eq!(rt; text.as_str(), wanted.as_str());
    }
    Ok(())
}
