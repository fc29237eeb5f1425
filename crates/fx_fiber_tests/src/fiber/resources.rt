//! Brackets.

use super::*;

static RELEASED: [Row; 7] = [
    (
        "bracket x (pure 4) (pure x) (pure 0)",
        &[
            pure!(4),
            Node::Pure(Arg::Slot(0)),
            pure!(0),
            bracket!(Some(0), 0, 1, 2),
        ],
        None,
        &[
            Event::Acquired(0),
            Event::Begin(0),
            Event::End(0),
            Event::Ended(Outcome::Succeeded(4)),
        ],
        3,
    ),
    (
        "bracket x (pure 4) (raise x) (pure 0)",
        &[
            pure!(4),
            Node::Raise(Arg::Slot(0)),
            pure!(0),
            bracket!(Some(0), 0, 1, 2),
        ],
        None,
        &[
            Event::Acquired(0),
            Event::Begin(0),
            Event::End(0),
            Event::Ended(Outcome::Errored(4)),
        ],
        3,
    ),
    (
        "bracket x (raise 8) (pure 1) (pure 2), requested as it acquires",
        &[raise!(8), pure!(1), pure!(2), bracket!(Some(0), 0, 1, 2)],
        Some(1),
        SEEN,
        1,
    ),
    (
        "bracket x (raise 8) (pure 1) (pure 2)",
        &[raise!(8), pure!(1), pure!(2), bracket!(Some(0), 0, 1, 2)],
        None,
        &[Event::Ended(Outcome::Errored(8))],
        1,
    ),
    (
        "bracket x (pure 4) (pure 5) (raise x)",
        &[
            pure!(4),
            pure!(5),
            Node::Raise(Arg::Slot(0)),
            bracket!(Some(0), 0, 1, 2),
        ],
        None,
        &[
            Event::Acquired(0),
            Event::Begin(0),
            Event::End(0),
            Event::Ended(Outcome::Errored(4)),
        ],
        3,
    ),
    (
        "bracket x (pure 4) (raise 5) (raise 6)",
        &[pure!(4), raise!(5), raise!(6), bracket!(Some(0), 0, 1, 2)],
        None,
        &[
            Event::Acquired(0),
            Event::Begin(0),
            Event::End(0),
            Event::Ended(Outcome::Errored(5)),
        ],
        3,
    ),
    (
        "bracket _ (pure 0) (pure 5) (pure 6), a guarantee",
        &[pure!(0), pure!(5), pure!(6), bracket!(None, 0, 1, 2)],
        None,
        &[
            Event::Acquired(0),
            Event::Begin(0),
            Event::End(0),
            Event::Ended(Outcome::Succeeded(5)),
        ],
        3,
    ),
];

#[test]
fn released(rt: HostRuntime) -> Result<(), Fail> {
    assert_runs(&rt, rt.alloc(), &RELEASED)
}

/// Neither part can be canceled inside: `canceled` makes a request that is seen outside.
static SEALED: [Row; 4] = [
    (
        "bracket x canceled (pure 1) (pure 2)",
        &[CANCELED, pure!(1), pure!(2), bracket!(Some(0), 0, 1, 2)],
        None,
        &[
            Event::SelfRequest,
            Event::Acquired(0),
            Event::Cancelled,
            Event::Begin(0),
            Event::End(0),
            Event::Ended(Outcome::Canceled),
        ],
        0,
    ),
    (
        "mask p (bracket x (poll p canceled) (pure 1) (pure 2))",
        &[
            CANCELED,
            poll!(0, 0),
            pure!(1),
            pure!(2),
            bracket!(Some(1), 1, 2, 3),
            mask!(0, 4),
        ],
        None,
        &[
            Event::SelfRequest,
            Event::Acquired(0),
            Event::Begin(0),
            Event::End(0),
            Event::Cancelled,
            Event::Ended(Outcome::Canceled),
        ],
        1,
    ),
    (
        "bracket x (pure 1) (pure 2) canceled",
        &[pure!(1), pure!(2), CANCELED, bracket!(Some(0), 0, 1, 2)],
        None,
        &[
            Event::Acquired(0),
            Event::Begin(0),
            Event::SelfRequest,
            Event::End(0),
            Event::Cancelled,
            Event::Ended(Outcome::Canceled),
        ],
        2,
    ),
    (
        "oncancel (oncancel canceled (bracket x (pure 1) (pure 2) (pure 3))) canceled",
        &[
            CANCELED,
            pure!(1),
            pure!(2),
            pure!(3),
            bracket!(Some(0), 1, 2, 3),
            on_cancel!(0, 4),
            CANCELED,
            on_cancel!(5, 6),
        ],
        None,
        &[
            Event::Cancelled,
            Event::Acquired(0),
            Event::Begin(0),
            Event::End(0),
            Event::SelfRequest,
            Event::Ended(Outcome::Canceled),
        ],
        0,
    ),
];

#[test]
fn acquired_and_released_under_a_seal(rt: HostRuntime) -> Result<(), Fail> {
    assert_runs(&rt, rt.alloc(), &SEALED)
}

static ACQUIRED: [Row; 3] = [
    (
        "seq (bracket x (pure 1) (pure 2) (pure 3)) (bracket x (pure 4) (pure 5) (pure 6))",
        &[
            pure!(1),
            pure!(2),
            pure!(3),
            bracket!(Some(0), 0, 1, 2),
            pure!(4),
            pure!(5),
            pure!(6),
            bracket!(Some(0), 4, 5, 6),
            seq!(3, 7),
        ],
        None,
        &[
            Event::Acquired(0),
            Event::Begin(0),
            Event::End(0),
            Event::Acquired(1),
            Event::Begin(1),
            Event::End(1),
            Event::Ended(Outcome::Succeeded(5)),
        ],
        6,
    ),
    (
        "for i 2 (bracket x (pure i) (pure x) (pure 0))",
        &[
            Node::Pure(Arg::Slot(0)),
            Node::Pure(Arg::Slot(1)),
            pure!(0),
            bracket!(Some(1), 0, 1, 2),
            Node::For(0, 2, NodeId(3)),
        ],
        None,
        &[
            Event::Acquired(0),
            Event::Begin(0),
            Event::End(0),
            Event::Acquired(1),
            Event::Begin(1),
            Event::End(1),
            Event::Ended(Outcome::Succeeded(0)),
        ],
        11,
    ),
    (
        "handle (bracket x (raise 1) (pure 2) (pure 3)) e (bracket x (pure 4) (pure 5) (pure 6))",
        &[
            raise!(1),
            pure!(2),
            pure!(3),
            bracket!(Some(0), 0, 1, 2),
            pure!(4),
            pure!(5),
            pure!(6),
            bracket!(Some(1), 4, 5, 6),
            Node::Handle(NodeId(3), Some(0), NodeId(7)),
        ],
        None,
        &[
            Event::Acquired(0),
            Event::Begin(0),
            Event::End(0),
            Event::Ended(Outcome::Succeeded(5)),
        ],
        4,
    ),
];

#[test]
fn acquired(rt: HostRuntime) -> Result<(), Fail> {
    assert_runs(&rt, rt.alloc(), &ACQUIRED)
}

const DEPTH: u32 = 3_000;

/// The nodes of that many brackets, each the use of the one round it.
fn nested(alloc: Global) -> Result<Vec<Node>, Fail> {
    let mut nodes = Vec::new(alloc);
    nodes.push(pure!(0))?;
    for inner in 0..DEPTH {
        let used = 3 * inner;
        let slot = DEPTH - 1 - inner;
        nodes.push(pure!(1))?;
        nodes.push(Node::Cede)?;
        nodes.push(bracket!(Some(slot), used + 1, used, used + 2))?;
    }
    Ok(nodes)
}

/// All are acquired, and then released from the last to the first.
fn in_reverse_order(alloc: Global) -> Result<Vec<Event>, Fail> {
    let mut events = Vec::new(alloc);
    for resource in 0..DEPTH {
        events.push(Event::Acquired(u64::from(resource)))?;
    }
    for resource in (0..DEPTH).rev() {
        events.push(Event::Begin(u64::from(resource)))?;
        events.push(Event::End(u64::from(resource)))?;
    }
    events.push(Event::Ended(Outcome::Succeeded(0)))?;
    Ok(events)
}

#[test]
fn acquired_3000_deep_and_released_in_reverse_order(rt: HostRuntime) -> Result<(), Fail> {
    let alloc = rt.alloc();
    let ran = run(alloc, &nested(alloc)?, None, 6 * DEPTH)?;
    assert!(rt; ran.has_ended);
    let trace = counted(alloc, &in_reverse_order(alloc)?)?;
    assert_eq!(rt; ran.trace.as_slice(), trace.as_slice());
    Ok(())
}
