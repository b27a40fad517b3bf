//! Ranks and bases, and how many bases there are.
ghost use Rattle.labels.specs.Families.{numbers_below};
ghost use Rattle.matroid_laws.specs.Matroids.{is_base};
ghost use Rattle.std.specs.Prelude.{◌≡◌, length, filter};

use crate::rig::{TRIANGLE, begun_on, complete, during, graph_of};
use crate::shown::Shown;
use crate::walking::rest_of;
use label_words::full_to;
use matroid::{Matroid, is_base, rank};
use std::io::Write;

/// Writes the ranks of some sets of the triangle, and which of some sets are bases.
pub fn write_answers<W: Write>(out: &mut W) -> anyhow::Result<()> {
    let triangle = graph_of(TRIANGLE.points, TRIANGLE.edges)?;
    for set in [0b111u64, 0b100, 0b11000] {
        let labels = Shown(set);
        writeln!(out, "triangle, rank of {labels}: {}", rank(&triangle, set))?;
    }
    for set in [0b011u64, 0b001, 0b111] {
        let labels = Shown(set);
        writeln!(
            out,
            "triangle, {labels} is a base: {}",
            is_base(&triangle, set)
        )?;
    }
    Ok(())
}

/// How many of the words below `words` are bases.
fn bases_below<M: Matroid>(matroid: &M, words: u64) -> u64
    ensures { result ≡ length (filter (is_base (M.Matroid.size matroid.now) (M.Matroid.independent matroid.now)) (numbers_below words)) }
{
    (0..words).filter(|set| is_base(matroid, *set)).count() as u64
}

/// Writes how many bases a walk on the complete graph of so many points hands out.
fn write_count<W: Write>(out: &mut W, points: u8) -> anyhow::Result<()> {
    let begun = begun_on(complete(points)?, 0, u64::MAX)?;
    let (more, count) = during(begun, |walk| (rest_of(walk), walk.look().count));
    writeln!(
        out,
        "complete graph of {points} points: {more} advances, count {count}"
    )?;
    Ok(())
}

/// Writes how many spanning trees complete graphs have: among all words, and on a walk.
pub fn write_counts<W: Write>(out: &mut W) -> anyhow::Result<()> {
    let five = complete(5)?;
    let highest = full_to(five.size());
    let found = bases_below(&five, highest.saturating_add(1));
    writeln!(
        out,
        "complete graph of 5 points: {found} bases among the words up to {highest}"
    )?;
    write_count(out, 5)?;
    write_count(out, 6)
}
