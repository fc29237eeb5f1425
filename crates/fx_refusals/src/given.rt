//! A script that was read.
ghost use Rattle.std.specs.Prelude.{◌≤◌, length};

use futures::task::Solo;
use fx_fiber::Report;
use fx_plain::replay;
use fx_sched::solo;
use fx_text::{Script, parse};
use std::alloc::{AllocGlobal, Global};
use std::random::RandomSource;

/// A script, the report of its replay, and what a worker that is alone polls its fibers by.
#[derive(Drop)]
pub struct Given {
    pub script: Script,
    pub report: Report,
    pub solo: Solo,
    ghost fits: { script.code.queues ≤ length script.queues.items },
}

/// The script that this text says.
pub fn given_of<R: RandomSource + AllocGlobal>(rt: &R, alloc: Global, text: &str) -> Option<Given> {
    let Ok(script) = parse(alloc, text.as_bytes()) else {
        return None;
    };
    let Ok(report) = replay(alloc, &script, &[]) else {
        return None;
    };
    let Ok(solo) = solo(rt) else {
        return None;
    };
    Some(Given {
        script,
        report,
        solo,
    })
}
