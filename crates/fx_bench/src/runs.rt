//! Runs a script so often by so many workers, with its wakes or with none, and prints how many fibers only a
//! sweep put back in all these runs: `bench/late` asks for it.

ghost use Rattle.std.specs.Prelude.{◌<◌, IfSome};

use crate::number;
use fx_run::{RunFault, run};
use fx_sched::Gate;
use fx_text::{Script, parse};
use std::alloc::{AllocGlobal, Global};
use std::env::Args;
use std::process::ExitCode;
use std::random::RandomSource;
use std::sync::Wait;
use std::thread::Threads;

/// What the words after `runs` or `unwoken` ask for.
#[derive(Drop)]
pub(crate) struct Asked {
    script: String,
    runs: u32,
    workers: u32,
}

pub(crate) fn wanted(given: &mut Args) -> Option<Asked>
    ensures { IfSome result (λ asked. 0 < asked.runs) }
{
    let script = given.next()?;
    let runs = number(given)?;
    let workers = number(given)?;
    if runs == 0 {
        return None;
    }
    Some(Asked {
        script,
        runs,
        workers,
    })
}

/// How many fibers only a sweep put back in all the runs.
fn late_of<R: Wait + Threads + Sync + RandomSource + AllocGlobal, G: Gate + Sync>(
    rt: &R,
    alloc: Global,
    script: &Script,
    runs: u32,
    workers: u32,
    gate: &G,
) -> Result<u64, RunFault> {
    let mut late = 0u64;
    for _ in 0..runs {
        late = late.saturating_add(run(rt, alloc, script, workers, gate)?.late);
    }
    Ok(late)
}

/// Runs the script, prints how many fibers were late, and gives the status of the program.
pub(crate) fn measure<
    R: Wait + Threads + Sync + RandomSource + AllocGlobal + Print,
    G: Gate + Sync,
>(rt: &R, alloc: Global, asked: Asked, gate: &G) -> ExitCode {
    let Ok(script) = parse(alloc, asked.script.as_bytes()) else {
        return ExitCode::from(1);
    };
    match late_of(rt, alloc, &script, asked.runs, asked.workers, gate) {
        Ok(late) => {
            let _ = println!(rt; "late {late}");
            ExitCode::from(0)
        }
        Err(_) => ExitCode::from(5),
    }
}
