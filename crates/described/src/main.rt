//! Reads a described rig from standard input and prints its list.
#![tactic(auto)]

mod building;
mod description;
mod filing;
mod passing;
mod piling;
mod walking;
mod words;

use anyhow::anyhow;
use building::Refusal;
use description::{Course, MOST_BYTES, Plan, Rig, read_rig};
use intake::take_from;
use matroid::Matroid;
use passing::Outgoing;
use piling::write_pile;
use std::io;
use std::io::Write;
use words::Unread;

/// How many bytes are read: one more than a description can have, so that a longer text shows.
const ROOM: usize = MOST_BYTES + 1;

/// What was written.
#[derive(Clone, Copy, Debug, PartialEq, Eq)]
enum Answer {
    /// The list of the rig, and what else is found of it.
    Listed,
    /// Why the plan is refused.
    Refused,
}

/// Writes the list over a plan, or that the plan is refused.
fn write_plan<W: Write, P: Matroid + Drop>(
    out: &mut Outgoing<W>,
    plan: Result<P, Refusal>,
    course: Course,
) -> io::Result<Answer> {
    match plan {
        Ok(matroid) => {
            write_pile(out, matroid, course)?;
            Ok(Answer::Listed)
        }
        Err(refusal) => {
            out.line(refusal)?;
            Ok(Answer::Refused)
        }
    }
}

/// Writes the list of a rig.
fn write_rig<W: Write>(out: &mut Outgoing<W>, rig: Rig) -> io::Result<Answer> {
    let Rig { plan, course } = rig;
    // A match and no `dyn`: a walk owns its matroid, and its contracts speak of its type.
    match plan {
        Plan::Seams(seams) => write_plan(out, seams.matroid(), course),
        Plan::Buttons(buttons) => write_plan(out, buttons.matroid(), course),
        Plan::Loads(loads) => write_plan(out, loads.matroid(), course),
    }
}

fn run(rt: &HostRuntime) -> anyhow::Result<()> {
    // A fixed buffer: no lawful description is longer, and a longer text is refused before anything is made of it.
    let mut buffer = [0u8; ROOM];
    let n = take_from(&mut rt.stdin(), &mut buffer)?;
    let read = read_rig(&buffer[..n], rt.alloc());
    if let Err(Unread::WrongForm) = &read {
        println!(rt; "wrong form")?;
    }
    let rig = read?;
    let mut out = Outgoing::new(rt.stdout(), rt.alloc());
    // After an error nothing more is written.
    let answer = write_rig(&mut out, rig)?;
    out.flush()?;
    match answer {
        Answer::Listed => Ok(()),
        Answer::Refused => Err(anyhow!("the plan is refused")),
    }
}

fn main(rt: HostRuntime) -> anyhow::Result<()> {
    run(&rt)
}
