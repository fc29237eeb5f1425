//! Fibers that are canceled from outside, before a turn that the gate counts to.
use crate::accounts::{adds_up, puts_causes_first};
use crate::rows::{Machine, PAIRS, assert_comes_to, run_text};
use fx_run::run;
use fx_sched::{At, Free};
use fx_term::{Event, Outcome, Stamped};
use fx_text::{Script, parse};
use std::test::Fail;

/// A script, the turn and the fiber of the gate, and what one worker comes to.
struct Row {
    script: &'static str,
    turn: u64,
    id: u32,
    report: &'static str,
    outside: &'static [u32],
}

/// The release tells by the queue that it ran.
const HELD: &str = "(queue q 4) (main (bracket x (pure 7) (never) (offer q x)))";

/// The fiber has a turn up to its yield, and one in which it begins to wait for good.
const YIELDS: &str = "(main (seq (cede) (never)))";

static ROWS: [Row; 6] = [
    Row {
        script: "(main (never))",
        turn: 0,
        id: 0,
        report: "fiber 0 canceled\n",
        outside: &[0],
    },
    // no fiber of the script has the number
    Row {
        script: "(main (never))",
        turn: 0,
        id: 5,
        report: "fiber 0 blocked\n",
        outside: &[],
    },
    Row {
        script: HELD,
        turn: 0,
        id: 0,
        report: "fiber 0 canceled\nqueue q left 7\n",
        outside: &[0],
    },
    // the fiber has one turn alone
    Row {
        script: HELD,
        turn: 1,
        id: 0,
        report: "fiber 0 blocked\nqueue q left\n",
        outside: &[],
    },
    Row {
        script: YIELDS,
        turn: 1,
        id: 0,
        report: "fiber 0 canceled\n",
        outside: &[0],
    },
    Row {
        script: YIELDS,
        turn: 2,
        id: 0,
        report: "fiber 0 blocked\n",
        outside: &[],
    },
];

#[test]
fn the_fiber_is_canceled_at_the_turn(rt: HostRuntime) -> Result<(), Fail> {
    for row in &ROWS {
        let written = run_text(&rt, row.script, 1, &At::new(row.turn, row.id))?;
        assert_eq!(rt; written.text.as_slice(), row.report.as_bytes());
        assert_eq!(rt;
            (written.outside.as_slice(), written.late),
            (row.outside, 0)
        );
    }
    Ok(())
}

macro_rules! at {
    ($stamp:literal, $event:expr) => { Stamped { event: $event, stamp: $stamp } };
}

/// Each stamp is one more than the one before it, since the request comes from outside.
static HELD_TRACE: [Stamped; 7] = [
    at!(1, Event::Acquired(0)),
    at!(2, Event::Seen),
    at!(3, Event::Cancelled),
    at!(4, Event::Begin(0)),
    at!(5, Event::Put(0, 7)),
    at!(6, Event::End(0)),
    at!(7, Event::Ended(Outcome::Canceled)),
];

#[test]
fn the_cancellation_acts_after_the_acquire(rt: HostRuntime) -> Result<(), Fail> {
    let script = parse(rt.alloc(), HELD.as_bytes())?;
    let report = run(&rt, rt.alloc(), &script, 1, &At::new(0, 0))?;
    let Some(main) = report.fibers.first() else {
        panic!(rt; "there is a main fiber")
    };
    assert!(rt; main.trace.as_slice() == HELD_TRACE.as_slice());
    Ok(())
}

/// The element comes before the cancellation, and wakes the fiber that is canceled: that one passes its
/// wake on to the other.
const PASSED_ON: &str = "(queue q 1) (main (start a (take q) (start b (take q) \
    (seq (offer q 3) (cancel a) (join b (x (pure x)) (e (pure 0)) (pure 1))))))";

#[test]
fn a_fiber_that_is_canceled_passes_its_wake_on(rt: HostRuntime) -> Result<(), Fail> {
    let report = "fiber 0 succeeded 3\nfiber 1 canceled\nfiber 2 succeeded 3\nqueue q left\n";
    assert_comes_to(&rt, PASSED_ON, 1, &Free, report)
}

/// How many turns of the pairs the gate counts through.
const TURNS: u64 = 200;

/// Runs a script whose gate names that fiber before that turn, and fails where its report does not add up, it has another
/// request from outside, or only a sweep put a fiber back.
fn assert_canceled_at(rt: &impl Machine, script: &Script, turn: u64, id: u32) -> Result<(), Fail> {
    let report = run(rt, rt.alloc(), script, 4, &At::new(turn, id))?;
    let outside = report.outside.as_slice();
    assert!(rt; adds_up(&report) && (outside.is_empty() || outside == [id].as_slice()));
    assert!(rt; puts_causes_first(rt, &report)?);
    assert_eq!(rt; report.late, 0);
    Ok(())
}

#[test]
fn each_fiber_may_be_canceled_at_each_turn(rt: HostRuntime) -> Result<(), Fail> {
    let script = parse(rt.alloc(), PAIRS.as_bytes())?;
    for turn in 0..=TURNS {
        for id in 0..=4u32 {
            assert_canceled_at(&rt, &script, turn, id)?;
        }
    }
    Ok(())
}
