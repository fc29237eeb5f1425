//! Gates that note each turn, or hold one until others have come.
ghost use Rattle.std.specs.Prelude.{false};

use crate::rows::{PAIRS, assert_comes_to, run_text};
use fx_sched::Gate;
use std::sync::atomic::{AtomicU64, Ordering};
use std::test::Fail;
use std::thread;

/// It notes whose turn begins, a decimal digit each: the fiber's number and one more.
#[derive(Drop)]
struct Noted {
    turns: AtomicU64,
}

impl Gate for Noted {
    ghost may = { λ gate id. false };

    ghost answers = { λ gate worker fiber named. Unit {0} };

    /// (one worker asks alone)
    fn turn(&self, _worker: u32, fiber: u32) -> Option<u32> {
        let turns = self.turns.load(Ordering::SeqCst);
        let digit = u64::from(fiber).wrapping_add(1);
        self.turns.store(turns.wrapping_mul(10).wrapping_add(digit), Ordering::SeqCst);
        None
    }
}

/// The main fiber starts 1 in its first turn, and each of its yields ends a turn, as that of 1 does.
const YIELDS: &str = "(main (start g (seq (cede) (pure 1)) (seq (cede) (seq (cede) (pure 2)))))";

#[test]
fn one_worker_asks_once_before_each_turn_in_their_order(rt: HostRuntime) -> Result<(), Fail> {
    let gate = Noted {
        turns: AtomicU64::new(0),
    };
    let report = "fiber 0 succeeded 2\nfiber 1 succeeded 1\n";
    assert_comes_to(&rt, YIELDS, 1, &gate, report)?;
    // (main starts 1, which comes before it; the last two turns are of main, which is alone then)
    assert_eq!(rt; gate.turns.load(Ordering::SeqCst), 121_211);
    Ok(())
}

/// How often a held turn looks for what it waits for before it gives up.
const TRIES: u32 = 1_000_000;

/// Holds the first turn of a fiber other than the main one until a turn begins on another worker.
#[derive(Drop)]
struct Pair {
    /// The worker of that turn and one more; 0 before there was one.
    holder: AtomicU64,
    /// How many turns began on other workers since.
    others: AtomicU64,
}

impl Gate for Pair {
    ghost may = { λ gate id. false };

    ghost answers = { λ gate worker fiber named. Unit {0} };

    fn turn(&self, worker: u32, fiber: u32) -> Option<u32> {
        let own = u64::from(worker) + 1;
        let holder = self.holder.load(Ordering::SeqCst);
        if holder != 0 && holder != own {
            self.others.fetch_add(1, Ordering::SeqCst);
        }
        if holder == 0 && fiber != 0 {
            self.holder.store(own, Ordering::SeqCst);
            for _ in 0..TRIES {
                if self.others.load(Ordering::SeqCst) > 0 {
                    break;
                }
                thread::yield_now();
            }
        }
        None
    }
}

#[test]
fn a_turn_begins_on_another_worker_while_one_is_held(rt: HostRuntime) -> Result<(), Fail> {
    let gate = Pair {
        holder: AtomicU64::new(0),
        others: AtomicU64::new(0),
    };
    let written = run_text(&rt, PAIRS, 2, &gate)?;
    assert!(rt; gate.others.load(Ordering::SeqCst) > 0);
    assert_eq!(rt; written.late, 0);
    Ok(())
}

/// Holds the turn of fiber 1 until the second turn of fiber 2 begins.
#[derive(Drop)]
struct UntilWoken {
    /// How many turns of fiber 2 began.
    turns: AtomicU64,
    /// How often the held turn gave up.
    gave_up: AtomicU64,
}

impl Gate for UntilWoken {
    ghost may = { λ gate id. false };

    ghost answers = { λ gate worker fiber named. Unit {0} };

    fn turn(&self, _worker: u32, fiber: u32) -> Option<u32> {
        if fiber == 2 {
            self.turns.fetch_add(1, Ordering::SeqCst);
        }
        if fiber == 1 {
            for _ in 0..TRIES {
                if self.turns.load(Ordering::SeqCst) > 1 {
                    return None;
                }
                thread::yield_now();
            }
            self.gave_up.fetch_add(1, Ordering::SeqCst);
        }
        None
    }
}

/// The main fiber starts three: 1, whose turn is held, 2, which waits for an element, and 3, which puts one.
const WAITS: &str =
    "(queue q 1) (main (start x (pure 1) (start y (take q) (start z (offer q 5) (pure 9)))))";

#[test]
fn a_waiting_fiber_is_woken_while_a_turn_is_held(rt: HostRuntime) -> Result<(), Fail> {
    let gate = UntilWoken {
        turns: AtomicU64::new(0),
        gave_up: AtomicU64::new(0),
    };
    let report =
        "fiber 0 succeeded 9\nfiber 1 succeeded 1\nfiber 2 succeeded 5\nfiber 3 succeeded 0\nqueue q left\n";
    assert_comes_to(&rt, WAITS, 2, &gate, report)?;
    assert_eq!(rt; gate.gave_up.load(Ordering::SeqCst), 0);
    Ok(())
}
