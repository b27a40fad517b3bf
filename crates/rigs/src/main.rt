//! Walks on small graphs: prints a line for each thing that is found, to be held against what was worked out by hand.
#![tactic(auto)]

mod closing;
mod counting;
mod listing;
mod rig;
mod shown;
mod surveys;
mod walking;

use std::io::{BufWriter, Write};

fn run(rt: &HostRuntime) -> anyhow::Result<()> {
    let mut out = BufWriter::new(rt.alloc(), rt.stdout())?;
    walking::write_walks(&mut out)?;
    walking::write_finished(&mut out)?;
    listing::write_lists(&mut out)?;
    surveys::write_surveys(rt.alloc(), &mut out)?;
    counting::write_answers(&mut out)?;
    counting::write_counts(&mut out)?;
    closing::write_closed(&mut out)?;
    Ok(out.flush()?)
}

fn main(rt: HostRuntime) -> anyhow::Result<()> {
    run(&rt)
}
