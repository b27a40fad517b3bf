//! What a writer refuses, and that it goes on as if nothing had been.
use crate::trip::{ROOM, write_reading};
use anyhow::anyhow;
use chain_lists::{Swap, Total};
use chain_writer::{Open, WriterRefusal, begin};
use std::io;
use std::io::Write;

/// Labels, start set and room of a file that is begun.
#[derive(Clone, Copy, Debug, PartialEq, Eq)]
struct Beginning {
    n: u8,
    start: u64,
    room: usize,
}

const BEGINNINGS: [Beginning; 9] = [
    Beginning {
        n: 3,
        start: 0b011,
        room: 65,
    },
    Beginning {
        n: 3,
        start: 0b011,
        room: 64,
    },
    Beginning {
        n: 3,
        start: 0b011,
        room: 0,
    },
    Beginning {
        n: 48,
        start: 1 << 47,
        room: 65,
    },
    Beginning {
        n: 49,
        start: 0,
        room: 65,
    },
    Beginning {
        n: 255,
        start: 0,
        room: 65,
    },
    Beginning {
        n: 3,
        start: 0b1000,
        room: 65,
    },
    Beginning {
        n: 0,
        start: 1,
        room: 64,
    },
    Beginning {
        n: 0,
        start: 0,
        room: 65,
    },
];

/// Exchanges of which only some can follow the set 12 over three labels.
const SWAPS: [Swap; 8] = [
    Swap { high: 3, low: 0 },
    Swap { high: 2, low: 2 },
    Swap { high: 2, low: 3 },
    Swap { high: 2, low: 1 },
    Swap { high: 4, low: 1 },
    Swap { high: 255, low: 1 },
    Swap { high: 3, low: 2 },
    Swap { high: 3, low: 2 },
];

/// The room of each file that is written with refusals on the way.
const ROOMS: [usize; 4] = [65, 73, 80, 81];

/// Writes the number of a refusal.
fn write_refused<W: Write>(out: &mut W, why: WriterRefusal) -> io::Result<()> {
    writeln!(out, "refused {}", why.number())
}

/// Writes whether a file was begun.
fn write_beginning<W: Write>(out: &mut W, b: Beginning) -> io::Result<()> {
    // A fixed buffer, made anew for each beginning, which gets the front of it: no room here is above `ROOM`.
    let mut buffer = [0xaau8; ROOM];
    let room = b.room.min(ROOM);
    write!(out, "{} labels, start {}, room {room}: ", b.n, b.start)?;
    match begin(&mut buffer[..room], b.n, b.start) {
        Ok(_) => writeln!(out, "begun"),
        Err(rejected) => write_refused(out, rejected.why),
    }
}

/// Writes what a call of a writer answers.
fn write_answer<W: Write>(out: &mut W, answer: Result<(), WriterRefusal>) -> io::Result<()> {
    match answer {
        Ok(()) => writeln!(out, "written"),
        Err(why) => write_refused(out, why),
    }
}

/// Writes what becomes of each exchange.
fn write_swaps<W: Write>(out: &mut W, file: &mut Open) -> io::Result<()> {
    for swap in &SWAPS {
        write!(out, "exchange {} {}: ", swap.high, swap.low)?;
        write_answer(out, file.exchange(*swap))?;
    }
    Ok(())
}

/// Writes a file with refusals on the way, and what it is read as.
fn write_stubborn<W: Write>(out: &mut W, buffer: &mut [u8]) -> anyhow::Result<()> {
    writeln!(out, "room {}", buffer.len())?;
    // A match: `Rejected` is no error for `anyhow`, and the check does not cover a closure over the lent buffer in it (tried).
    let mut file = match begin(buffer, 3, 0b011) {
        Ok(file) => file,
        Err(rejected) => return Err(anyhow!("no file is begun: {}", rejected.why.number())),
    };
    write_swaps(out, &mut file)?;
    let mut totals = file.total(Total::Lamp(u64::MAX));
    write!(out, "lamp total again: ")?;
    write_answer(out, totals.total(Total::Lamp(0)))?;
    write!(out, "shift total: ")?;
    write_answer(out, totals.total(Total::Shift(i64::MIN, i64::MAX)))?;
    write!(out, "shift total again: ")?;
    write_answer(out, totals.total(Total::Shift(0, 0)))?;
    let written = totals.end();
    writeln!(out, "{} bytes", written.length)?;
    Ok(write_reading(out, "read back", written.file())?)
}

/// Writes the lines of all refusals.
pub fn write_refusals<W: Write>(out: &mut W) -> anyhow::Result<()> {
    for b in &BEGINNINGS {
        write_beginning(out, *b)?;
    }
    for room in ROOMS {
        write_stubborn(out, &mut [0xaau8; ROOM][..room.min(ROOM)])?;
    }
    Ok(())
}
