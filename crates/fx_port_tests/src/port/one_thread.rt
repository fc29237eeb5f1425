//! Fibers on one thread, and what they see of one another.
use super::play::{Move, Row, Told, assert_rows};
use Move::{Request, Step};
use fx_term::{Arg, Event, Node, NodeId, Outcome};
use std::test::Fail;

static ROWS: [Row; 5] = [
    Row {
        what: "an element goes from one fiber to another",
        nodes: &[
            Node::Offer(0, Arg::Number(5)),
            Node::Take(0),
            Node::Start(0, NodeId(0), NodeId(1)),
        ],
        moves: &[Step(0), Step(1), Step(0), Step(0)],
        told: Told::Trace(&[
            (Event::Start(1), 1),
            (Event::Got(0, 5), 3),
            (Event::Ended(Outcome::Succeeded(5)), 4),
        ]),
    },
    Row {
        what: "an element goes from the main fiber to another",
        nodes: &[
            Node::Take(0),
            Node::Offer(0, Arg::Number(5)),
            Node::Pure(Arg::Slot(1)),
            Node::Raise(Arg::Slot(1)),
            Node::Pure(Arg::Number(0)),
            Node::Join(0, 1, NodeId(2), 1, NodeId(3), NodeId(4)),
            Node::Let(None, NodeId(1), NodeId(5)),
            Node::Start(0, NodeId(0), NodeId(6)),
        ],
        moves: &[
            Step(0),
            Step(0),
            Step(0),
            Step(1),
            Step(1),
            Step(0),
            Step(0),
            Step(0),
        ],
        told: Told::Trace(&[
            (Event::Start(1), 1),
            (Event::Put(0, 5), 2),
            (Event::Joined(1, Outcome::Succeeded(5)), 5),
            (Event::Ended(Outcome::Succeeded(5)), 6),
        ]),
    },
    Row {
        what: "a fiber is canceled and awaited",
        nodes: &[
            Node::Never,
            Node::Cancel(0),
            Node::Start(0, NodeId(0), NodeId(1)),
        ],
        moves: &[
            Step(0),
            Step(0),
            Step(1),
            Step(1),
            Step(1),
            Step(0),
            Step(0),
        ],
        told: Told::Trace(&[
            (Event::Start(1), 1),
            (Event::Request(1), 2),
            (Event::Awaited(1), 6),
            (Event::Ended(Outcome::Succeeded(0)), 7),
        ]),
    },
    Row {
        what: "a full queue refuses",
        nodes: &[
            Node::TryOffer(0, Arg::Number(5)),
            Node::TryOffer(0, Arg::Number(6)),
            Node::Let(None, NodeId(0), NodeId(1)),
        ],
        moves: &[Step(0), Step(0), Step(0), Step(0)],
        told: Told::Trace(&[
            (Event::Put(0, 5), 1),
            (Event::Refused(0), 2),
            (Event::Ended(Outcome::Succeeded(0)), 3),
        ]),
    },
    Row {
        what: "a request from outside has the stamp 0",
        nodes: &[
            Node::Offer(0, Arg::Number(5)),
            Node::Never,
            Node::Let(None, NodeId(0), NodeId(1)),
        ],
        moves: &[Step(0), Request(0), Step(0), Step(0), Step(0)],
        told: Told::Trace(&[
            (Event::Put(0, 5), 1),
            (Event::Seen, 2),
            (Event::Cancelled, 3),
            (Event::Ended(Outcome::Canceled), 4),
        ]),
    },
];

#[test]
fn a_fiber_sees_what_others_did(rt: HostRuntime) -> Result<(), Fail> {
    assert_rows(&rt, rt.alloc(), &ROWS)
}
