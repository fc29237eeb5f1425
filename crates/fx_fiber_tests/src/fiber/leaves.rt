//! Leaves without parts, and the answers of each step at `never` and `cede`.

use super::*;
use Answer::{Ended, Gave, Waits, Went};

const NEVER: Node = Node::Never;

const CEDE: Node = Node::Cede;

/// The first five steps of a run: what it is called, its code, the look from which on its fiber is
/// requested, the answers of the steps, the events after them, whose stamps count up from 1, and how many
/// looks there were.
pub(super) type Steps<'a> = (
    &'a str,
    &'a [Node],
    Option<u32>,
    &'a [Answer],
    &'a [Event],
    u32,
);

/// Runs the fiber of each row for five steps.
pub(super) fn assert_steps(rt: &impl Abort, alloc: Global, rows: &[Steps]) -> Result<(), Fail> {
    for &(row, nodes, request, answers, events, looks) in rows {
        let ran = run(alloc, nodes, request, 5)?;
        let trace = counted(alloc, events)?;
        assert!(rt;
            ran.has(&trace, looks) && ran.answers.as_slice() == answers,
            "{row}"
        );
    }
    Ok(())
}

static NEVER_AND_CEDE: [Steps; 11] = [
    ("never", &[NEVER], None, &[Waits; 5], &[], 5),
    (
        "never, requested",
        &[NEVER],
        Some(3),
        &[Waits, Waits, Went, Went, Ended],
        SEEN,
        3,
    ),
    (
        "oncancel never (pure 1), requested",
        &[NEVER, pure!(1), on_cancel!(0, 1)],
        Some(2),
        &[Waits, Went, Went, Went, Went],
        &[Event::Seen, Event::Cancelled],
        2,
    ),
    (
        "mask p never, requested once it is masked",
        &[NEVER, mask!(0, 0)],
        Some(2),
        &[Went, Waits, Waits, Waits, Waits],
        &[],
        1,
    ),
    (
        "oncancel canceled never",
        &[CANCELED, NEVER, on_cancel!(0, 1)],
        None,
        &[Went, Went, Waits, Waits, Waits],
        &[Event::Cancelled],
        0,
    ),
    (
        "bracket x (pure 1) canceled never",
        &[pure!(1), CANCELED, NEVER, bracket!(Some(0), 0, 1, 2)],
        None,
        &[Went, Went, Went, Went, Waits],
        &[Event::Acquired(0), Event::Cancelled, Event::Begin(0)],
        0,
    ),
    (
        "bracket x never (pure 1) (pure 2), requested",
        &[NEVER, pure!(1), pure!(2), bracket!(Some(0), 0, 1, 2)],
        Some(1),
        &[Waits; 5],
        &[],
        0,
    ),
    (
        "let x cede (pure x)",
        &[
            CEDE,
            Node::Pure(Arg::Slot(0)),
            Node::Let(Some(0), NodeId(0), NodeId(1)),
        ],
        None,
        &[Gave, Went, Went, Ended],
        &[Event::Ended(Outcome::Succeeded(0))],
        4,
    ),
    (
        "cede, requested",
        &[CEDE],
        Some(1),
        &[Went, Went, Ended],
        SEEN,
        1,
    ),
    (
        "mask p cede",
        &[CEDE, mask!(0, 0)],
        None,
        &[Went, Gave, Went, Ended],
        &[Event::Ended(Outcome::Succeeded(0))],
        2,
    ),
    (
        "oncancel canceled cede",
        &[CANCELED, CEDE, on_cancel!(0, 1)],
        None,
        &[Went, Went, Gave, Went, Ended],
        CANCELED_HERE,
        0,
    ),
];

#[test]
fn never_and_cede(rt: HostRuntime) -> Result<(), Fail> {
    assert_steps(&rt, rt.alloc(), &NEVER_AND_CEDE)
}

static PURE_AND_RAISE: [Row; 3] = [
    (
        "pure 5",
        &[pure!(5)],
        None,
        &[Event::Ended(Outcome::Succeeded(5))],
        2,
    ),
    (
        "raise 3",
        &[raise!(3)],
        None,
        &[Event::Ended(Outcome::Errored(3))],
        2,
    ),
    ("pure 5, requested", &[pure!(5)], Some(1), SEEN, 1),
];

#[test]
fn pure_and_raise(rt: HostRuntime) -> Result<(), Fail> {
    assert_runs(&rt, rt.alloc(), &PURE_AND_RAISE)
}

static CANCELED_LEAF: [Row; 1] = [("canceled", &[CANCELED], None, CANCELED_HERE, 0)];

#[test]
fn cancelled_at_canceled(rt: HostRuntime) -> Result<(), Fail> {
    assert_runs(&rt, rt.alloc(), &CANCELED_LEAF)
}
