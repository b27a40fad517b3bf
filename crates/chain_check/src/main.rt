//! Reads a chain file from standard input and prints what each of its records says, then whether it is accepted.
#![tactic(auto)]

mod answering;
mod checking;

use answering::Answer;
use anyhow::anyhow;
use checking::{Failure, check_file};

fn run(rt: &HostRuntime) -> anyhow::Result<()> {
    match check_file(&mut rt.stdin(), &mut rt.stdout(), rt.alloc()) {
        Ok(Answer::Accepted) => Ok(()),
        Ok(Answer::Refused) => Err(anyhow!("the file is refused")),
        Err(Failure::Reading(e) | Failure::Writing(e)) => Err(e.into()),
        Err(Failure::TooLong) => Err(anyhow!("the file is too long")),
        Err(Failure::NoMemory) => Err(anyhow!("out of memory")),
    }
}

fn main(rt: HostRuntime) -> anyhow::Result<()> {
    run(&rt)
}
