//! Walks on piles of layers and on odd matroids: a line for each, with the number of bases that are found without a walk.
#![tactic(auto)]

mod comparing;
mod kinds;
mod measuring;
mod odd;
mod parts;
mod piling;
mod refusals;

use std::io::{BufWriter, Write};

/// Writes the lines of all cases, up to one where the numbers differ.
fn write_cases<W: Write>(out: &mut W) -> anyhow::Result<()> {
    piling::write_piles(out)?;
    measuring::write_measures(out)?;
    parts::write_parts(out)?;
    odd::write_odd(out)?;
    refusals::write_refusals(out)
}

fn run(rt: &HostRuntime) -> anyhow::Result<()> {
    let mut out = BufWriter::new(rt.alloc(), rt.stdout())?;
    let written = write_cases(&mut out);
    out.flush()?;
    written
}

fn main(rt: HostRuntime) -> anyhow::Result<()> {
    run(&rt)
}
