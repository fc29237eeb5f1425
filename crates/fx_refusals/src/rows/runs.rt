//! Whole runs on threads.

use crate::given::Given;
use crate::harness::{Answer, OTHER, whole_where};
use crate::refuser::Refuser;
use crate::shown::is_written;
use fx_run::{RunFault, run};
use fx_sched::Free;
use std::alloc::{AllocGlobal, Global};
use std::random::RandomSource;
use std::sync::Wait;
use std::thread::Threads;

/// What a run answers by so many workers. A thread that cannot be started counts as want of memory.
pub fn runs<R: Wait + Threads + Sync + RandomSource + AllocGlobal>(
    rt: &R,
    alloc: Global,
    given: &Given,
    text: &str,
    workers: u32,
    refuser: &Refuser,
) -> Answer {
    refuser.go_on();
    let report = run(rt, alloc, &given.script, workers, &Free);
    refuser.hold();
    match report {
        Ok(report) => whole_where(is_written(alloc, &given.script, &report, text)),
        Err(RunFault::Memory) => Answer::Memory,
        Err(_) => OTHER,
    }
}
