//! Fibers that start others and wait for them, where the others take no step.

use super::leaves::{Steps, assert_steps};
use super::*;
use Answer::{Child, Ended, Waits, Went};

static STARTS: [Steps; 3] = [
    (
        "start h (pure 1) (pure 2)",
        &[pure!(1), pure!(2), start!(0, 0, 1)],
        None,
        &[Child, Went, Ended],
        &[Event::Start(1), Event::Ended(Outcome::Succeeded(2))],
        3,
    ),
    (
        "start h (start k (pure 1) (pure 2)) (start j (pure 3) (pure 4)): the first child has a number for its own",
        &[
            pure!(1),
            pure!(2),
            start!(0, 0, 1),
            pure!(3),
            pure!(4),
            start!(1, 3, 4),
            start!(0, 2, 5),
        ],
        None,
        &[Child, Child, Went, Ended],
        &[
            Event::Start(1),
            Event::Start(3),
            Event::Ended(Outcome::Succeeded(4)),
        ],
        4,
    ),
    (
        "start h (pure 1) (pure 2), requested",
        &[pure!(1), pure!(2), start!(0, 0, 1)],
        Some(1),
        &[Went, Went, Ended],
        SEEN,
        1,
    ),
];

#[test]
fn starts(rt: HostRuntime) -> Result<(), Fail> {
    assert_steps(&rt, rt.alloc(), &STARTS)
}

static WAITS: [Steps; 4] = [
    (
        "start h (pure 1) (join h ..), requested while it waits",
        &[
            pure!(1),
            pure!(2),
            pure!(3),
            pure!(4),
            Node::Join(0, 1, NodeId(1), 1, NodeId(2), NodeId(3)),
            start!(0, 0, 4),
        ],
        Some(3),
        &[Child, Waits, Went, Went, Ended],
        &[
            Event::Start(1),
            Event::Seen,
            Event::Cancelled,
            Event::Ended(Outcome::Canceled),
        ],
        3,
    ),
    (
        "start h (pure 1) (first h h)",
        &[pure!(1), Node::First(0, 0), start!(0, 0, 1)],
        None,
        &[Child, Waits, Waits, Waits, Waits],
        &[Event::Start(1)],
        5,
    ),
    (
        "start h (pure 1) (cancel h), requested while it awaits the end, which is not seen",
        &[pure!(1), Node::Cancel(0), start!(0, 0, 1)],
        Some(3),
        &[Child, Went, Waits, Waits, Waits],
        &[Event::Start(1), Event::Request(1)],
        2,
    ),
    (
        "mask p (start h (pure 1) (join h ..)), requested while it waits, which is not seen",
        &[
            pure!(1),
            pure!(2),
            pure!(3),
            pure!(4),
            Node::Join(1, 2, NodeId(1), 2, NodeId(2), NodeId(3)),
            start!(1, 0, 4),
            mask!(0, 5),
        ],
        Some(2),
        &[Went, Child, Waits, Waits, Waits],
        &[Event::Start(1)],
        1,
    ),
];

#[test]
fn waits_for_fibers(rt: HostRuntime) -> Result<(), Fail> {
    assert_steps(&rt, rt.alloc(), &WAITS)
}
