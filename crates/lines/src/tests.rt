ghost use Rattle.lines.specs.Pages.{page_text};
ghost use Rattle.lines.specs.Text.{line_text};
ghost use Rattle.std.specs.Prelude.{◌≡◌, ◌++◌, IfOk, codes};

use super::*;
use std::test::Fail;

/// What a caller learns of a page of two lines.
fn two_lines(first: Line, second: Line) -> Result<Page, PageFull>
    ensures { IfOk result (λ page. page_text page ≡ (line_text first.count first.set ++ codes "\n") ++ (line_text second.count second.set ++ codes "\n")) }
{
    let mut page = Page::new();
    page.put(first)?;
    page.put(second)?;
    Ok(page)
}

#[test]
fn labels_upwards(rt: HostRuntime) -> Result<(), Fail> {
    let two = Line {
        count: 2,
        set: 0b101,
    };
    let ends = Line {
        count: 30,
        set: 1 << 63 | 1 << 9,
    };
    assert!(rt; two_lines(two, ends)?.text() == b"2 1 3\n30 10 64\n".as_slice());
    let none = Line { count: 1, set: 0 };
    let most = Line {
        count: u64::MAX,
        set: 1 << 8,
    };
    assert!(rt; two_lines(none, most)?.text() == b"1\n18446744073709551615 9\n".as_slice());
    Ok(())
}

#[test]
fn a_full_page(rt: HostRuntime) {
    let line = Line {
        count: u64::MAX,
        set: u64::MAX,
    };
    let mut page = Page::new();
    for _ in 0..50u8 {
        let _ = page.put(line);
    }
    assert_eq!(rt; page.put(line), Err(PageFull));
    // 39 lines of 204 bytes: 20 digits, 9 labels of one digit and 55 of two, a line feed.
    assert_eq!(rt; page.text().len(), 39 * 204);
    page.clear();
    assert!(rt; page.text().is_empty());
    assert_eq!(rt; page.put(line), Ok(()));
    assert_eq!(rt; page.text().len(), 204);
}

#[test]
fn totals(rt: HostRuntime) {
    let three = TotalLine {
        count: 3,
        across: 16,
        along: 12,
    };
    assert_eq!(rt; three.text().as_str(), "total 3 16 12\n");
    let small = TotalLine {
        count: 1,
        across: 0,
        along: -5,
    };
    assert_eq!(rt; small.text().as_str(), "total 1 0 -5\n");
    let longest = TotalLine {
        count: u64::MAX,
        across: i64::MIN,
        along: -1,
    };
    assert_eq!(rt;
        longest.text().as_str(),
        "total 18446744073709551615 -9223372036854775808 -1\n"
    );
}

#[test]
fn refusals(rt: HostRuntime) {
    let refused = RefusedLine { number: 5, row: 3 };
    assert_eq!(rt; refused.text().as_str(), "refused 5 row 3\n");
}

#[test]
fn sets(rt: HostRuntime) {
    assert_eq!(rt; set_text(0).as_str(), "none");
    assert_eq!(rt; set_text(0b1101).as_str(), "134");
    assert_eq!(rt; set_text(1 << 63 | 1).as_str(), "164");
}
