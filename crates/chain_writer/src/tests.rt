ghost use Rattle.chain_lists.specs.Lists.{begun, file_of, with_swap, with_total};
ghost use Rattle.chain_writer.specs.Writing.{begin_refusal, put_at};
ghost use Rattle.std.specs.Prelude.{◌≡◌, length, IfOk, MatchOption, None, Some};

use super::*;
use chain_lists::{Swap, Total};
use std::test::Fail;

/// A buffer in which no file can begin is left as it was.
fn head_alone(buffer: &mut [u8], n: u8, start: u64) -> Option<WriterRefusal>
    ensures { MatchOption result
        (begin_refusal n start buffer.old ≡ None)
        (λ why. (begin_refusal n start buffer.old ≡ Some why) × (buffer.new ≡ buffer.old)) }
{
    put_head(buffer, n, start).err()
}

/// A buffer holds the file of one exchange and two totals, and behind it what it held before.
fn whole_file(
    buffer: &mut [u8],
    start: u64,
    swap: Swap,
    first: Total,
    second: Total,
) -> Result<usize, WriterRefusal>
    ensures { IfOk result (λ end.
        let list = with_total (with_total (with_swap (begun 3 start) swap) first) second in
        (end ≡ length (file_of list)) × (buffer.new ≡ put_at 0 (file_of list) buffer.old)) }
{
    let mut open = put_head(buffer, 3, start)?;
    open.put_exchange(buffer, swap)?;
    let mut totals = open.put_first_total(buffer, first);
    totals.put_total(buffer, second)?;
    Ok(totals.put_end(buffer))
}

#[test]
fn a_refused_head(rt: HostRuntime) {
    let mut buffer = [7; 100];
    let why = head_alone(&mut buffer[..64], 3, 0b1).map(WriterRefusal::number);
    assert_eq!(rt; why, Some(12));
    assert_eq!(rt;
        head_alone(&mut buffer, 3, 0b1000).map(WriterRefusal::number),
        Some(21)
    );
    assert_eq!(rt; buffer, [7; 100]);
}

/// The same file by a writer, in the same buffer.
fn lent_file<'a>(
    buffer: &'a mut [u8],
    start: u64,
    swap: Swap,
    first: Total,
    second: Total,
) -> Result<Written<'a>, WriterRefusal>
    ensures { IfOk result (λ written.
        let list = with_total (with_total (with_swap (begun 3 start) swap) first) second in
        (written.length ≡ length (file_of list)) × (written.out.now ≡ put_at 0 (file_of list) buffer.old)
        × (written.out.ghost_name ≡ buffer.entry.ghost_name)) }
{
    let mut file = begin(buffer, 3, start)?;
    file.exchange(swap)?;
    let mut totals = file.total(first);
    totals.total(second)?;
    Ok(totals.end())
}

#[test]
fn both_ways(rt: HostRuntime) -> Result<(), Fail> {
    let swap = Swap { high: 2, low: 1 };
    let (first, second) = (Total::Shift(1, -1), Total::Lamp(5));
    let mut put = [7; 100];
    let end = whole_file(&mut put, 0b1, swap, first, second)?;
    let mut lent = [7; 100];
    let written = lent_file(&mut lent, 0b1, swap, first, second)?;
    assert_eq!(rt; written.length, end);
    assert!(rt; written.file() == &put[..end]);
    assert_eq!(rt; lent, put);
    Ok(())
}
