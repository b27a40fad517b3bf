//! The list of a walk, written and read back.
use crate::shown::Shown;
use anyhow::{Context, anyhow};
use chain_lists::{Swap, Total};
use chain_reader::{ListReader, read};
use chain_writer::{Open, WriterRefusal, Written, begin};
use graphic::Graphic;
use matroid::Matroid;
use measure::Words;
use std::io;
use std::io::Write;
use survey_walk::{SurveyWalk, walk_of};
use tie_rule::Closest;
use walk::Walk;

/// How many bytes the buffers here have.
pub const ROOM: usize = 512;

/// A survey, and what it is called.
#[derive(Clone, Copy, Debug, PartialEq, Eq)]
struct Rig {
    name: &'static str,
    text: &'static [u8],
}

// `rigs` has this text too: one for both would be a public constant of a library, for two trials alone.
const TRIANGLE: Rig = Rig {
    name: "triangle",
    text: b"3\n1,2,10,0\n2,3,0,5\n1,3,-2,1\n",
};

const TWO_TRIANGLES: Rig = Rig {
    name: "two triangles",
    text: b"4\n1,3,10,0\n2,3,0,5\n1,2,-2,1\n1,4,7,-7\n2,4,-30,1\n",
};

/// The words that labels are worth, by label from 1.
const WORDS: [u64; 5] = [0b01, 0b10, 0b11, 0b100, 0b1000];

/// Adds all further exchanges of a walk to a file.
// Beside that of `described`, which stops after a number of steps and tells how many there were before a refusal.
fn add_exchanges(walk: &mut SurveyWalk, file: &mut Open) -> Result<(), WriterRefusal> {
    while let Some(x) = walk.advance() {
        // By hand, as the total below: a program cannot write `From` for two types of other crates, and these know nothing of each other.
        file.exchange(Swap {
            high: x.high,
            low: x.low,
        })?;
    }
    Ok(())
}

/// Writes the list of a walk, with the shift total and the lamp total where there is one.
fn write_list<'a>(
    walk: &mut SurveyWalk,
    n: u8,
    lamp: Option<u64>,
    buffer: &'a mut [u8],
) -> Result<Written<'a>, WriterRefusal> {
    let mut file = begin(buffer, n, walk.look().present)?;
    add_exchanges(walk, &mut file)?;
    let Some(word) = lamp else {
        return Ok(file.end());
    };
    let total = walk.look().total;
    let mut totals = file.total(Total::Shift(total.across, total.along));
    totals.total(Total::Lamp(word))?;
    Ok(totals.end())
}

/// The total of the walk over the same graph with words as measure.
fn lamp_total(graphic: Graphic) -> anyhow::Result<u64> {
    let mut words = Words::new();
    for word in &WORDS {
        words.add(*word).context("a word is refused")?;
    }
    let mut walk = Walk::begin(graphic, Closest, words, 0, u64::MAX);
    // A loop: an iterator made by `std::iter::from_fn` is not known to end, and what runs one to its end asks that.
    while walk.advance().is_some() {}
    Ok(walk.close().view.total.bits)
}

/// Begins the walk over a rig's survey.
fn walk_over(rig: Rig) -> anyhow::Result<SurveyWalk> {
    let (_, walk) = walk_of(rig.text).map_err(|refusal| {
        anyhow!(
            "the survey is refused: {} in row {}",
            refusal.fault.number(),
            refusal.row
        )
    })?;
    Ok(walk)
}

/// Ends a walk, and gives its graph back.
fn graph_of(walk: SurveyWalk) -> Graphic {
    walk.close().matroid
}

/// Writes what a file is read as.
pub fn write_verdict<W: Write>(out: &mut W, file: &[u8]) -> io::Result<()> {
    match read(file) {
        Ok(summary) => writeln!(out, "{}", Shown(summary)),
        Err(fault) => writeln!(out, "{fault}"),
    }
}

/// Writes what each record of a file says, then the list in short.
pub fn write_reading<W: Write>(out: &mut W, name: &str, file: &[u8]) -> io::Result<()> {
    let mut reader = ListReader::new(file);
    while let Ok(Some(part)) = reader.next() {
        let byte = part.record.spot.byte;
        let length = part.record.bytes.len();
        writeln!(
            out,
            "{name}, byte {byte}, {length} bytes: {}",
            Shown(part.entry)
        )?;
    }
    // A reader that finds a fault finds it again when it is asked again.
    if let Err(fault) = reader.next() {
        writeln!(out, "{name}: {fault}")?;
    }
    write!(out, "{name}: ")?;
    write_verdict(out, file)
}

/// Writes the list of a rig's walk into the buffer.
fn list_of<'a>(rig: Rig, totals: bool, buffer: &'a mut [u8]) -> anyhow::Result<Written<'a>> {
    let graphic = graph_of(walk_over(rig)?);
    let n = graphic.size();
    let lamp = if totals {
        Some(lamp_total(graphic)?)
    } else {
        None
    };
    let mut walk = walk_over(rig)?;
    let written = write_list(&mut walk, n, lamp, buffer);
    let _ = graph_of(walk);
    written.map_err(|why| anyhow!("the list is refused: {}", why.number()))
}

/// Writes what became of a rig's list, with or without totals.
fn write_trip<W: Write>(out: &mut W, rig: Rig, totals: bool) -> anyhow::Result<()> {
    // A fixed buffer: the lists here are short, and a `Vec` would only add a way to fail.
    let mut buffer = [0u8; ROOM];
    let written = list_of(rig, totals, &mut buffer)?;
    writeln!(out, "{}: {} bytes", rig.name, written.length)?;
    Ok(write_reading(out, rig.name, written.file())?)
}

/// Writes the triangle's list with both totals into the buffer.
pub fn triangle<'a>(buffer: &'a mut [u8]) -> anyhow::Result<Written<'a>> {
    list_of(TRIANGLE, true, buffer)
}

/// Writes the lines of all lists that are written and read back.
pub fn write_trips<W: Write>(out: &mut W) -> anyhow::Result<()> {
    write_trip(out, TRIANGLE, false)?;
    write_trip(out, TRIANGLE, true)?;
    write_trip(out, TWO_TRIANGLES, true)
}
