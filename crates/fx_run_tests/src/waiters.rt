//! Fibers that wait, and who is woken.
ghost use Rattle.std.specs.Prelude.{true};

use crate::accounts::adds_up;
use crate::rows::run_text;
use fx_fiber::State;
use fx_run::run;
use fx_sched::{Free, Gate};
use fx_text::parse;
use std::sync::atomic::{AtomicU64, Ordering};
use std::test::Fail;
use std::thread;

/// How often a held turn gives way to other threads.
const YIELDS: u32 = 300;

/// Asks for the cancellation of fiber 1 before its second turn, to which a put has woken it. The third turn
/// of the main fiber, which puts, is held until both takers have begun, and a while longer.
#[derive(Drop)]
struct CancelsTheWoken {
    /// How many turns of the main fiber began.
    mains: AtomicU64,
    /// How many of fiber 1.
    ones: AtomicU64,
    /// How many of fiber 2.
    twos: AtomicU64,
}

impl CancelsTheWoken {
    fn new() -> CancelsTheWoken {
        CancelsTheWoken {
            mains: AtomicU64::new(0),
            ones: AtomicU64::new(0),
            twos: AtomicU64::new(0),
        }
    }

    fn have_begun(&self) -> bool {
        self.ones.load(Ordering::SeqCst) > 0 && self.twos.load(Ordering::SeqCst) > 0
    }

    fn hold(&self) {
        let mut yields = 0u32;
        for _ in 0..1_000_000u32 {
            if self.have_begun() {
                yields = yields.saturating_add(1);
            }
            if yields > YIELDS {
                break;
            }
            thread::yield_now();
        }
    }
}

impl Gate for CancelsTheWoken {
    ghost may = { λ gate id. true };

    ghost answers = { λ gate worker fiber named. Unit {0} };

    fn turn(&self, _worker: u32, fiber: u32) -> Option<u32> {
        match fiber {
            0 => {
                if self.mains.fetch_add(1, Ordering::SeqCst) == 2 {
                    self.hold();
                }
                None
            }
            1 => {
                if self.ones.fetch_add(1, Ordering::SeqCst) == 1 {
                    Some(1)
                } else {
                    None
                }
            }
            _ => {
                self.twos.fetch_add(1, Ordering::SeqCst);
                None
            }
        }
    }
}

/// Two takers and one element.
const TAKERS: &str = "(queue q 1) (main (start a (take q) (start b (take q) (offer q 3))))";

/// The first taker was woken, and was canceled before it took: the second one has the element.
const PASSED_ON: &str =
    "fiber 0 succeeded 0\nfiber 1 canceled\nfiber 2 succeeded 3\nqueue q left\n";

#[test]
fn a_canceled_waiter_passes_its_wake_on(rt: HostRuntime) -> Result<(), Fail> {
    let mut passed_on = 0u32;
    for _ in 0..100u32 {
        let gate = CancelsTheWoken::new();
        let written = run_text(&rt, TAKERS, 4, &gate)?;
        assert_eq!(rt; written.late, 0);
        if written.text.as_slice() == PASSED_ON.as_bytes() {
            passed_on = passed_on.saturating_add(1);
        }
    }
    assert!(rt; passed_on > 0);
    Ok(())
}

/// As many takers as there can be beside the main fiber, and an element for each, one at a time.
const CROWD: &str =
    "(queue q 1) (main (seq (for i 4095 (start h (take q) (cede))) (for i 4095 (offer q i))))";

#[test]
fn as_many_as_can_wait_for_one_queue_are_woken_one_by_one(rt: HostRuntime) -> Result<(), Fail> {
    let script = parse(rt.alloc(), CROWD.as_bytes())?;
    let report = run(&rt, rt.alloc(), &script, 4, &Free)?;
    let all_ended = report
        .fibers
        .iter()
        .all(|fiber| matches!(fiber.state, State::Ended));
    assert!(rt; report.fibers.len() == 4096 && all_ended && adds_up(&report));
    assert_eq!(rt; report.late, 0);
    Ok(())
}
