//! `if` and `for`.

use super::*;

const GIVES_0: &[Event] = &[Event::Ended(Outcome::Succeeded(0))];

static LOOPS: [Row; 6] = [
    (
        "for i 0 (raise 1)",
        &[raise!(1), Node::For(0, 0, NodeId(0))],
        None,
        GIVES_0,
        3,
    ),
    (
        "for i 1 (pure 7)",
        &[pure!(7), Node::For(0, 1, NodeId(0))],
        None,
        GIVES_0,
        6,
    ),
    (
        "for i 3 (pure 7)",
        &[pure!(7), Node::For(0, 3, NodeId(0))],
        None,
        GIVES_0,
        12,
    ),
    (
        "for i 3 (if i (raise i) (pure 7))",
        &[
            Node::Raise(Arg::Slot(0)),
            pure!(7),
            Node::If(Arg::Slot(0), NodeId(0), NodeId(1)),
            Node::For(0, 3, NodeId(2)),
        ],
        None,
        &[Event::Ended(Outcome::Errored(1))],
        10,
    ),
    (
        "for i 3 (if i canceled (pure 7))",
        &[
            CANCELED,
            pure!(7),
            Node::If(Arg::Slot(0), NodeId(0), NodeId(1)),
            Node::For(0, 3, NodeId(2)),
        ],
        None,
        CANCELED_HERE,
        7,
    ),
    (
        "for i 3 (pure 7), requested before its second turn",
        &[pure!(7), Node::For(0, 3, NodeId(0))],
        Some(5),
        SEEN,
        5,
    ),
];

#[test]
fn loop_turns_and_loop_ends(rt: HostRuntime) -> Result<(), Fail> {
    assert_runs(&rt, rt.alloc(), &LOOPS)
}

static IFS: [Row; 3] = [
    (
        "let x (pure 2) (if x (pure 5) (pure 6))",
        &[
            pure!(2),
            pure!(5),
            pure!(6),
            Node::If(Arg::Slot(0), NodeId(1), NodeId(2)),
            Node::Let(Some(0), NodeId(0), NodeId(3)),
        ],
        None,
        &[Event::Ended(Outcome::Succeeded(5))],
        5,
    ),
    (
        "let x (pure 0) (if x (pure 5) (pure 6))",
        &[
            pure!(0),
            pure!(5),
            pure!(6),
            Node::If(Arg::Slot(0), NodeId(1), NodeId(2)),
            Node::Let(Some(0), NodeId(0), NodeId(3)),
        ],
        None,
        &[Event::Ended(Outcome::Succeeded(6))],
        5,
    ),
    (
        "if 0 (pure 1) (raise 2)",
        &[
            pure!(1),
            raise!(2),
            Node::If(Arg::Number(0), NodeId(0), NodeId(1)),
        ],
        None,
        &[Event::Ended(Outcome::Errored(2))],
        3,
    ),
];

#[test]
fn if_not_zero_and_if_zero(rt: HostRuntime) -> Result<(), Fail> {
    assert_runs(&rt, rt.alloc(), &IFS)
}
