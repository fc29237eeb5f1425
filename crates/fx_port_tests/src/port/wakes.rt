//! Whom each deed wakes.
use super::play::{Move, Row, Told, assert_rows};
use Move::{Request, Step};
use fx_term::{Arg, Node, NodeId};
use std::test::Fail;

/// `start h (pure 1) (join h (x (pure x)) (e (raise e)) (pure 2))`.
const JOINS: &[Node] = &[
    Node::Pure(Arg::Number(1)),
    Node::Pure(Arg::Slot(1)),
    Node::Raise(Arg::Slot(1)),
    Node::Pure(Arg::Number(2)),
    Node::Join(0, 1, NodeId(1), 1, NodeId(2), NodeId(3)),
    Node::Start(0, NodeId(0), NodeId(4)),
];

/// `start h (never) (cancel h)`.
const CANCELS: &[Node] = &[
    Node::Never,
    Node::Cancel(0),
    Node::Start(0, NodeId(0), NodeId(1)),
];

/// `start h (pure 1) (start k (pure 2) (first h k))`.
const FIRST: &[Node] = &[
    Node::Pure(Arg::Number(1)),
    Node::Pure(Arg::Number(2)),
    Node::First(0, 1),
    Node::Start(1, NodeId(1), NodeId(2)),
    Node::Start(0, NodeId(0), NodeId(3)),
];

static ROWS: [Row; 14] = [
    Row {
        what: "a put wakes who waits for an element",
        nodes: &[
            Node::Take(0),
            Node::Offer(0, Arg::Number(5)),
            Node::Start(0, NodeId(0), NodeId(1)),
        ],
        moves: &[Step(0), Step(1), Step(0)],
        told: Told::Woken(&[(2, 1)]),
    },
    Row {
        what: "a get wakes who waits for room",
        nodes: &[
            Node::Offer(0, Arg::Number(5)),
            Node::Offer(0, Arg::Number(6)),
            Node::Take(0),
            Node::Start(0, NodeId(1), NodeId(2)),
            Node::Let(None, NodeId(0), NodeId(3)),
        ],
        moves: &[Step(0), Step(0), Step(0), Step(1), Step(0)],
        told: Told::Woken(&[(4, 1)]),
    },
    Row {
        what: "a request wakes its fiber",
        nodes: CANCELS,
        moves: &[Step(0), Step(1), Step(0)],
        told: Told::Woken(&[(2, 1)]),
    },
    Row {
        what: "a request from outside wakes its fiber",
        nodes: CANCELS,
        moves: &[Step(0), Step(1), Request(1)],
        told: Told::Woken(&[(2, 1)]),
    },
    Row {
        what: "an end wakes who waits for its outcome",
        nodes: JOINS,
        moves: &[Step(0), Step(0), Step(1), Step(1)],
        told: Told::Woken(&[(3, 0)]),
    },
    Row {
        what: "an end wakes nobody who has not waited",
        nodes: JOINS,
        moves: &[Step(0), Step(1), Step(1), Step(0)],
        told: Told::Woken(&[]),
    },
    Row {
        // the put wakes fiber 1, which is canceled before it takes the element
        what: "a canceled waiter passes its wake on",
        nodes: &[
            Node::Take(0),
            Node::Take(0),
            Node::Offer(0, Arg::Number(5)),
            Node::Cancel(0),
            Node::Let(None, NodeId(2), NodeId(3)),
            Node::Start(1, NodeId(1), NodeId(4)),
            Node::Start(0, NodeId(0), NodeId(5)),
        ],
        moves: &[
            Step(0),
            Step(0),
            Step(1),
            Step(2),
            Step(0),
            Step(0),
            Step(0),
            Step(1),
        ],
        told: Told::Woken(&[(4, 1), (6, 1), (7, 2)]),
    },
    Row {
        // fiber 1 is canceled before the put
        what: "a put wakes no waiter that has left",
        nodes: &[
            Node::Take(0),
            Node::Take(0),
            Node::Cancel(0),
            Node::Offer(0, Arg::Number(5)),
            Node::Let(None, NodeId(2), NodeId(3)),
            Node::Start(1, NodeId(1), NodeId(4)),
            Node::Start(0, NodeId(0), NodeId(5)),
        ],
        moves: &[
            Step(0),
            Step(0),
            Step(1),
            Step(2),
            Step(0),
            Step(1),
            Step(1),
            Step(1),
            Step(0),
            Step(0),
            Step(0),
        ],
        told: Told::Woken(&[(4, 1), (10, 2)]),
    },
    Row {
        // the first get wakes fiber 1, which is canceled before it puts
        what: "a canceled waiter passes its wake for room on",
        nodes: &[
            Node::Offer(0, Arg::Number(5)),
            Node::Offer(0, Arg::Number(6)),
            Node::Offer(0, Arg::Number(7)),
            Node::Take(0),
            Node::Cancel(0),
            Node::Let(None, NodeId(3), NodeId(4)),
            Node::Start(1, NodeId(2), NodeId(5)),
            Node::Start(0, NodeId(1), NodeId(6)),
            Node::Let(None, NodeId(0), NodeId(7)),
        ],
        moves: &[
            Step(0),
            Step(0),
            Step(0),
            Step(0),
            Step(1),
            Step(2),
            Step(0),
            Step(0),
            Step(0),
            Step(1),
        ],
        told: Told::Woken(&[(6, 1), (8, 1), (9, 2)]),
    },
    Row {
        // the first put wakes fiber 2, and fiber 1 takes the element
        what: "a fiber that took without its wake is listed no more",
        nodes: &[
            Node::Take(0),
            Node::Never,
            Node::Let(None, NodeId(0), NodeId(1)),
            Node::Take(0),
            Node::Offer(0, Arg::Number(5)),
            Node::Offer(0, Arg::Number(6)),
            Node::Let(None, NodeId(4), NodeId(5)),
            Node::Start(1, NodeId(3), NodeId(6)),
            Node::Start(0, NodeId(2), NodeId(7)),
        ],
        moves: &[
            Step(0),
            Step(0),
            Step(2),
            Step(1),
            Step(0),
            Step(1),
            Step(2),
            Step(0),
            Step(0),
        ],
        told: Told::Woken(&[(4, 2), (8, 2)]),
    },
    Row {
        // the first get wakes fiber 2, and fiber 1 puts into the room
        what: "a fiber that put without its wake is listed no more",
        nodes: &[
            Node::Offer(0, Arg::Number(6)),
            Node::Never,
            Node::Let(None, NodeId(0), NodeId(1)),
            Node::Offer(0, Arg::Number(7)),
            Node::Offer(0, Arg::Number(5)),
            Node::Take(0),
            Node::Take(0),
            Node::Let(None, NodeId(5), NodeId(6)),
            Node::Start(1, NodeId(3), NodeId(7)),
            Node::Start(0, NodeId(2), NodeId(8)),
            Node::Let(None, NodeId(4), NodeId(9)),
        ],
        moves: &[
            Step(0),
            Step(0),
            Step(0),
            Step(0),
            Step(2),
            Step(1),
            Step(0),
            Step(1),
            Step(2),
            Step(0),
            Step(0),
        ],
        told: Told::Woken(&[(6, 2), (10, 2)]),
    },
    Row {
        what: "an end wakes all who wait for it",
        nodes: &[
            Node::Pure(Arg::Number(1)),
            Node::Pure(Arg::Slot(1)),
            Node::Raise(Arg::Slot(1)),
            Node::Pure(Arg::Number(0)),
            Node::Join(0, 1, NodeId(1), 1, NodeId(2), NodeId(3)),
            Node::Pure(Arg::Slot(2)),
            Node::Raise(Arg::Slot(2)),
            Node::Pure(Arg::Number(0)),
            Node::Join(0, 2, NodeId(5), 2, NodeId(6), NodeId(7)),
            Node::Start(1, NodeId(4), NodeId(8)),
            Node::Start(0, NodeId(0), NodeId(9)),
        ],
        moves: &[Step(0), Step(0), Step(2), Step(0), Step(1), Step(1)],
        told: Told::Woken(&[(5, 0), (5, 2)]),
    },
    Row {
        what: "either of two ends wakes who waits for the first of them",
        nodes: FIRST,
        moves: &[
            Step(0),
            Step(0),
            Step(0),
            Step(2),
            Step(2),
            Step(1),
            Step(1),
        ],
        told: Told::Woken(&[(4, 0), (6, 0)]),
    },
    Row {
        // the main fiber sees the end of fiber 2 before fiber 1 ends
        what: "who saw the first of two ends waits for neither",
        nodes: FIRST,
        moves: &[
            Step(0),
            Step(0),
            Step(0),
            Step(2),
            Step(2),
            Step(0),
            Step(1),
            Step(1),
        ],
        told: Told::Woken(&[(4, 0)]),
    },
];

#[test]
fn each_deed_wakes_those_that_wait_for_it_alone(rt: HostRuntime) -> Result<(), Fail> {
    assert_rows(&rt, rt.alloc(), &ROWS)
}
