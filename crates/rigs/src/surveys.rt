//! Walks that the texts of surveys open.
use crate::rig::during;
use crate::walking::write_sets;
use anyhow::anyhow;
use labels::LIMIT;
use lines::RefusedLine;
use matroid::{Matroid, rank};
use std::alloc::Global;
use std::io::Write;
use std::{fmt, io};
use survey::Refusal;
use survey_walk::walk_of;

/// What a survey is called, and its text.
type Case = (&'static str, &'static [u8]);

// `chain_files` has this text too: one for both would be a public constant of a library, for two trials alone.
const TRIANGLE: Case = ("triangle", b"3\n1,2,10,0\n2,3,0,5\n1,3,-2,1\n");

const UNENDED: Case = (
    "triangle, no last line feed",
    b"3\n1,2,10,0\n2,3,0,5\n1,3,-2,1",
);

const CASES: [Case; 8] = [
    TRIANGLE,
    UNENDED,
    ("32 points", b"32\n"),
    ("33 points", b"33\n"),
    ("shift -0", b"3\n1,2,-0,0\n"),
    ("empty text", b""),
    ("same point", b"3\n1,2,0,0\n2,2,0,0\n"),
    ("pair turned round", b"3\n1,2,0,0\n2,3,0,0\n2,1,0,0\n"),
];

/// How many points the long texts have.
const POINTS: u8 = 11;

/// The line of a refusal.
fn line_of(refusal: Refusal) -> RefusedLine {
    RefusedLine {
        number: refusal.fault.number(),
        row: refusal.row,
    }
}

/// Writes what a text opens, or why it is refused.
fn write_opening<W: Write>(out: &mut W, name: &str, text: &[u8]) -> io::Result<()> {
    match walk_of(text) {
        Ok((_, walk)) => {
            let matroid = walk.close().matroid;
            writeln!(
                out,
                "survey, {name}: {} points, {} labels, rank {}",
                matroid.points(),
                matroid.size(),
                rank(&matroid, u64::MAX)
            )
        }
        Err(refusal) => write!(out, "survey, {name}: {}", line_of(refusal).text()),
    }
}

/// Writes the whole walk that a text opens.
fn write_walk<W: Write>(out: &mut W, case: Case) -> anyhow::Result<()> {
    let (name, text) = case;
    write!(out, "survey, {name}: ")?;
    match walk_of(text) {
        Ok((_, walk)) => Ok(during(walk, |walk| write_sets(out, walk))?),
        Err(refusal) => {
            write!(out, "{}", line_of(refusal).text())?;
            Err(anyhow!("the survey is refused"))
        }
    }
}

/// The text of a survey whose edges are the first `size` pairs of points: 1 and 2, 1 and 3, 2 and 3, 1 and 4 and so on.
fn first_rows(heap: Global, size: usize) -> Result<String, fmt::Error> {
    let mut text = String::new(heap);
    writeln!(text, "{POINTS}")?;
    let pairs = (2..=POINTS).flat_map(|b| (1..b).map(move |a| (a, b)));
    for (a, b) in pairs.take(size) {
        writeln!(text, "{a},{b},0,0")?;
    }
    Ok(text)
}

/// Writes the lines of all texts.
pub fn write_surveys<W: Write>(heap: Global, out: &mut W) -> anyhow::Result<()> {
    for (name, text) in &CASES {
        write_opening(out, name, text)?;
    }
    write_opening(
        out,
        "a row for each label",
        first_rows(heap, LIMIT)?.as_bytes(),
    )?;
    write_opening(
        out,
        "a row too many",
        first_rows(heap, LIMIT + 1)?.as_bytes(),
    )?;
    write_walk(out, TRIANGLE)?;
    write_walk(out, UNENDED)
}
