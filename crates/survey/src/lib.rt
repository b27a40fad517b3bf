//! The reader of survey files.
//!
//! A row ends with a line feed; a rest without one is a row too, if it is not empty. Row 1 is the number of points, 1 to 32. Each
//! later row is `a,b,across,along`: two points and the shift between them in arc seconds; its place among these rows, from 1, is its
//! label. A number has one to seven digits and no leading zero, and a minus only before a nonzero shift. Nothing else stands in a row.
//!
//! Rows are gone through downwards. Refused, in this order within a row: a row past the highest label (3), a wrong form, or no row at
//! all (1), a point outside 1 to the number of points, or a shift beyond a million either way (2), the same point twice (4), a pair of
//! points that an earlier row has, either way round (5). All else is accepted.
#![tactic(auto)]

mod fields;
mod judging;
mod kept_rows;
mod numerals;
mod reading;
mod table;
mod values;

pub use reading::read;
pub use table::Survey;
pub use values::{Fault, Refusal, Row};

#[cfg(test)]
mod tests {
    use super::*;
    use std::alloc::Global;
    use std::fmt;
    use std::fmt::Write;
    use std::test::Fail;

    const TRIANGLE: &[u8] = b"3\n1,2,10,0\n2,3,0,5\n1,3,-2,1\n";

    const SEAMS: [Row; 3] = [
        Row {
            a: 1,
            b: 2,
            across: 10,
            along: 0,
        },
        Row {
            a: 2,
            b: 3,
            across: 0,
            along: 5,
        },
        Row {
            a: 1,
            b: 3,
            across: -2,
            along: 1,
        },
    ];

    // Whether the text is refused by this number, at this row.
    fn is_refused(text: &[u8], number: u8, row: u32) -> bool {
        read(text).is_err_and(|e| e.fault.number() == number && e.row == row)
    }

    // Whether the text is read as the triangle.
    fn is_triangle(text: &[u8]) -> bool {
        read(text).is_ok_and(|s| {
            s.points() == 3
                && s.len() == 3
                && s.rows() == SEAMS.as_slice()
                && s.row(0) == Some(SEAMS[0])
                && s.row(1) == Some(SEAMS[1])
                && s.row(2) == Some(SEAMS[2])
        })
    }

    #[test]
    fn reads(rt: HostRuntime) {
        assert!(rt; is_triangle(TRIANGLE));
        assert!(rt; is_triangle(b"3\n1,2,10,0\n2,3,0,5\n1,3,-2,1"));
        assert!(rt; read(b"32\n").is_ok());
    }

    #[test]
    fn refuses(rt: HostRuntime) {
        assert!(rt; is_refused(b"", 1, 1));
        assert!(rt; is_refused(b"33\n", 2, 1));
        assert!(rt; is_refused(b"3\n1,2,-0,0\n", 1, 2));
        assert!(rt; is_refused(b"3\n1,2,01,0\n", 1, 2));
        assert!(rt; is_refused(b"3\n1,2,1000001,0\n", 2, 2));
        assert!(rt; is_refused(b"3\n1,2,0,0\n3,3,0,0\n", 4, 3));
        assert!(rt; is_refused(b"3\n1,2,0,0\n2,3,0,0\n2,1,0,0\n", 5, 4));
    }

    // The text of a survey with so many rows, each with a pair of its own.
    fn many(heap: Global, size: usize) -> Result<String, fmt::Error> {
        let mut text = String::new(heap);
        writeln!(text, "32")?;
        for i in 0..size {
            writeln!(text, "1{},2{},0,0", i / 7, i % 7)?;
        }
        Ok(text)
    }

    #[test]
    fn counts(rt: HostRuntime) -> Result<(), Fail> {
        assert!(rt; read(many(rt.alloc(), 48)?.as_bytes()).is_ok());
        assert!(rt; is_refused(many(rt.alloc(), 49)?.as_bytes(), 3, 50));
        Ok(())
    }
}
