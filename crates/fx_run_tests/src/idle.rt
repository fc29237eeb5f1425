//! A run in which no worker has anything to do.
ghost use Rattle.std.specs.Prelude.{false};

use crate::rows::run_text;
use fx_sched::Gate;
use std::sync::atomic::{AtomicU64, Ordering};
use std::test::Fail;
use std::thread;
use std::time::{Clock, CpuClock, Duration};

/// How many milliseconds the other workers have until they sleep.
const SETTLES: u64 = 200;

/// How many milliseconds they are watched then.
const WATCHED: u64 = 400;

/// Holds the first turn until all other workers sleep, and then watches them for a while.
#[derive(Drop)]
struct Watch<'a, R: CpuClock> {
    rt: &'a R,
    /// How many milliseconds of a processor all threads took meanwhile; the most there are before that.
    used: AtomicU64,
}

/// What all threads take of a processor in that time, in milliseconds, if the clock can be read.
fn used<R: Clock + CpuClock>(rt: &R) -> Option<u64> {
    let began = rt.process_cpu_time().ok()?;
    thread::sleep(rt, Duration::from_millis(WATCHED));
    let ended = rt.process_cpu_time().ok()?;
    u64::try_from(ended.saturating_sub(began).as_millis()).ok()
}

impl<'a, R: Clock + CpuClock + Sync> Gate for Watch<'a, R> {
    ghost may = { λ gate id. false };

    ghost answers = { λ gate worker fiber named. Unit {0} };

    fn turn(&self, _worker: u32, _fiber: u32) -> Option<u32> {
        thread::sleep(self.rt, Duration::from_millis(SETTLES));
        if let Some(used) = used(self.rt) {
            self.used.store(used, Ordering::SeqCst);
        }
        None
    }
}

#[test]
fn a_run_that_waits_for_a_gate_takes_no_processor_time(rt: HostRuntime) -> Result<(), Fail> {
    let gate = Watch {
        rt: &rt,
        used: AtomicU64::new(u64::MAX),
    };
    let written = run_text(&rt, "(main (pure 1))", 16, &gate)?;
    assert_eq!(rt;
        written.text.as_slice(),
        b"fiber 0 succeeded 1\n".as_slice()
    );
    assert!(rt; gate.used.load(Ordering::SeqCst) < WATCHED / 10);
    Ok(())
}
