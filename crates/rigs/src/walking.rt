//! Whole walks, set by set.
ghost use Rattle.std.specs.Prelude.{◌≡◌, ◌+◌};

use crate::rig::{Rig, TRIANGLE, begun, during};
use crate::shown::Shown;
use std::io;
use std::io::Write;
use survey_walk::SurveyWalk;

/// The walks that are gone through from the start to the end.
const RIGS: [Rig; 9] = [
    TRIANGLE,
    Rig {
        offered: 0b100,
        ..TRIANGLE
    },
    Rig {
        offered: 0b111,
        ..TRIANGLE
    },
    Rig {
        opened: 0b010,
        ..TRIANGLE
    },
    Rig {
        opened: 0b100,
        ..TRIANGLE
    },
    Rig {
        name: "two triangles",
        points: 4,
        edges: &[(1, 3), (2, 3), (1, 2), (1, 4), (2, 4)],
        offered: 0b01101,
        opened: 0b11111,
    },
    Rig {
        name: "one point",
        points: 1,
        edges: &[],
        offered: 0,
        opened: 0,
    },
    Rig {
        name: "triangle with a loop",
        points: 3,
        edges: &[(1, 2), (2, 2), (2, 3), (1, 3)],
        offered: 0,
        opened: 0b1111,
    },
    Rig {
        name: "two components",
        points: 4,
        edges: &[(1, 2), (3, 4), (3, 4)],
        offered: 0,
        opened: 0b111,
    },
];

/// Writes the set that the walk is at, and each that it hands out until it is finished; then the count and the total.
pub fn write_sets<W: Write>(out: &mut W, walk: &mut SurveyWalk) -> io::Result<()> {
    loop {
        let view = walk.look();
        let present = Shown(view.present);
        write!(out, "{present} ")?;
        if walk.advance().is_none() {
            return writeln!(
                out,
                "finished, count {}, total {}",
                view.count,
                Shown(view.total)
            );
        }
    }
}

/// Advances to the end, and answers how many sets were handed out on the way.
pub fn rest_of(walk: &mut SurveyWalk) -> u64
    ensures { walk.new.view.count ≡ walk.old.view.count + result }
{
    // By hand: apart from the walk's own count, against which the contract holds it; and an iterator made by `std::iter::from_fn` is not
    // known to end, which `count` asks.
    let mut more: u64 = 0;
    while walk.advance().is_some() {
        more += 1;
    }
    more
}

/// Writes the line of a rig's whole walk.
fn write_walk<W: Write>(out: &mut W, rig: Rig) -> anyhow::Result<()> {
    let offered = Shown(rig.offered);
    let opened = Shown(rig.opened);
    write!(out, "{}, offered {offered}, active {opened}: ", rig.name)?;
    Ok(during(begun(rig)?, |walk| write_sets(out, walk))?)
}

/// Writes the lines of all rigs.
pub fn write_walks<W: Write>(out: &mut W) -> anyhow::Result<()> {
    for rig in &RIGS {
        write_walk(out, *rig)?;
    }
    Ok(())
}

/// Writes all that a finished walk holds, before and after it is advanced once more.
pub fn write_finished<W: Write>(out: &mut W) -> anyhow::Result<()> {
    let (before, again, after) = during(begun(TRIANGLE)?, |walk| {
        rest_of(walk);
        (walk.look(), walk.advance(), walk.look())
    });
    writeln!(out, "finished: {}", Shown(before))?;
    match again {
        Some(_) => writeln!(out, "advanced again: moved")?,
        None => writeln!(out, "advanced again: finished, {}", Shown(after))?,
    }
    Ok(())
}
