//! Makes the calls that the scripts of `bench/` measure. The first word says which, and the others say on what, how
//! often and by how many threads:
//!
//! 1. `words CALL COUNT THREADS` makes one call of words.
//! 2. `queues COUNT THREADS` puts into a queue, and takes from it.
//! 3. `runs SCRIPT RUNS WORKERS` runs a script, and counts the fibers that only a sweep put back.
//! 4. `unwoken SCRIPT RUNS WORKERS` does that where each wake is dropped.
//!
//! The status is 2 where the words ask for none of these, 1 where the script has a fault, and 5 where memory runs out
//! or a run gives no report.
#![tactic(auto)]

mod queues;
mod runs;
mod words;

use fx_sched::{DropsWakes, Free};
use std::env::{self, Args};
use std::process::ExitCode;

/// Which measurement the words after the program's name ask for, and what those after that word ask of it.
#[derive(Drop)]
enum Asked {
    Words(words::Asked),
    Queues(queues::Asked),
    Runs(runs::Asked),
    Unwoken(runs::Asked),
}

fn wanted(rt: &HostRuntime) -> Option<Asked> {
    let mut given = env::args(rt).ok()?;
    let _program = given.next()?;
    match given.next()?.as_str() {
        "words" => Some(Asked::Words(words::wanted(&mut given)?)),
        "queues" => Some(Asked::Queues(queues::wanted(&mut given)?)),
        "runs" => Some(Asked::Runs(runs::wanted(&mut given)?)),
        "unwoken" => Some(Asked::Unwoken(runs::wanted(&mut given)?)),
        _ => None,
    }
}

/// The next of the words, which is to be a number.
fn number(given: &mut Args) -> Option<u32> {
    given.next()?.parse().ok()
}

fn main(rt: HostRuntime) -> ExitCode {
    match wanted(&rt) {
        Some(Asked::Words(asked)) => words::measure(&rt, rt.alloc(), asked),
        Some(Asked::Queues(asked)) => queues::measure(&rt, rt.alloc(), asked),
        Some(Asked::Runs(asked)) => runs::measure(&rt, rt.alloc(), asked, &Free),
        Some(Asked::Unwoken(asked)) => runs::measure(&rt, rt.alloc(), asked, &DropsWakes),
        None => ExitCode::from(2),
    }
}
