//! Lists on rolls, of sets and of exchanges.
use crate::rig::{Rig, TRIANGLE, begun, during};
use crate::shown::Shown;
use roll::Roll;
use std::io::Write;
use std::{fmt, io};
use survey_walk::SurveyWalk;
use walk::{Entry, Exchange};

/// Lists the walk into the room, and writes how many were appended, why it stopped, and the entries.
fn write_list<W: Write, E: Entry>(
    out: &mut W,
    walk: &mut SurveyWalk,
    room: &mut [E],
) -> io::Result<()>
where
    Shown<E>: fmt::Display,
{
    write!(out, "list, room for {}: ", room.len())?;
    let mut roll = Roll::new(room);
    let (appended, stop) = walk.list(&mut roll);
    write!(out, "{appended} {}:", Shown(stop))?;
    for entry in roll.entries() {
        write!(out, " {}", Shown(*entry))?;
    }
    writeln!(out)
}

/// Lists sets into no room, into room for one twice, and then into room for five.
fn write_set_lists<W: Write>(out: &mut W, walk: &mut SurveyWalk) -> io::Result<()> {
    writeln!(out, "before: {}", Shown(walk.look()))?;
    write_list(out, walk, &mut [0u64; 0])?;
    writeln!(out, "after: {}", Shown(walk.look()))?;
    write_list(out, walk, &mut [0u64; 1])?;
    write_list(out, walk, &mut [0u64; 1])?;
    write_list(out, walk, &mut [0u64; 5])
}

/// Lists exchanges into room for five.
fn write_exchange_list<W: Write>(out: &mut W, walk: &mut SurveyWalk) -> io::Result<()> {
    // A filler: a roll is lent a slice, whose entries are there before it writes them.
    let none = Exchange {
        high: 0,
        low: 0,
        came: false,
    };
    let mut exchanges = [none; 5];
    write_list(out, walk, &mut exchanges)
}

/// Writes the list of a rig's exchanges.
fn write_exchanges<W: Write>(out: &mut W, rig: Rig) -> anyhow::Result<()> {
    Ok(during(begun(rig)?, |walk| write_exchange_list(out, walk))?)
}

/// Writes the triangle's lists.
pub fn write_lists<W: Write>(out: &mut W) -> anyhow::Result<()> {
    during(begun(TRIANGLE)?, |walk| write_set_lists(out, walk))?;
    write_exchanges(out, TRIANGLE)?;
    write_exchanges(
        out,
        Rig {
            offered: 0b100,
            ..TRIANGLE
        },
    )
}
