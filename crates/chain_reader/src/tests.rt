use super::*;
use chain_lists::Spot;
use chain_records::RecordFault;
use std::alloc::Global;
use std::fmt;
use std::test::Fail;

/// Whether each fault is printed with its number, at this byte and after so many exchanges.
fn are_shown(heap: Global, byte: usize, before: u64) -> Result<bool, fmt::Error> {
    let spot = Spot { byte, before };
    let faults = [
        (31u8, ListFault::Record(RecordFault::CutOff(spot))),
        (32, ListFault::Record(RecordFault::Misshapen(spot))),
        (33, ListFault::OutOfOrder(spot)),
        (34, ListFault::WrongHead(spot)),
        (35, ListFault::WrongExchange(spot)),
        (36, ListFault::WrongCount(spot)),
    ];
    for (number, fault) in faults {
        let wanted = format!(in heap; "refused {number} byte {byte} after {before}")?;
        if fault.to_string(heap)?.as_str() != wanted.as_str() {
            return Ok(false);
        }
    }
    Ok(true)
}

#[test]
fn faults_of_all_lengths(rt: HostRuntime) -> Result<(), Fail> {
    assert!(rt; are_shown(rt.alloc(), usize::MAX, u64::MAX)?);
    // The least number of each length, and the one before it.
    let mut least = 1u64;
    for _ in 0..20u8 {
        let last = least.wrapping_sub(1);
        assert!(rt; are_shown(rt.alloc(), least as usize, last)?);
        assert!(rt; are_shown(rt.alloc(), last as usize, least)?);
        least = least.wrapping_mul(10);
    }
    Ok(())
}
