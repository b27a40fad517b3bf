//! A walk's list is written as a chain file, read back and damaged: prints a line for each thing that is found, to be held against
//! what was worked out apart from this program.
#![tactic(auto)]

mod damage;
mod refusals;
mod shown;
mod trip;

use std::io::{BufWriter, Write};

fn run(rt: &HostRuntime) -> anyhow::Result<()> {
    let mut out = BufWriter::new(rt.alloc(), rt.stdout())?;
    trip::write_trips(&mut out)?;
    refusals::write_refusals(&mut out)?;
    damage::write_damages(&mut out)?;
    Ok(out.flush()?)
}

fn main(rt: HostRuntime) -> anyhow::Result<()> {
    run(&rt)
}
