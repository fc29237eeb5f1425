//! Fibers that offer and take.

use super::leaves::{Steps, assert_steps};
use super::*;
use Answer::{Ended, Waits, Went};

const OFFER: Node = Node::Offer(0, Arg::Number(5));

const OFFER_IN_VAIN: Node = Node::Offer(1, Arg::Number(5));

const TAKE: Node = Node::Take(0);

static PUTS_AND_TAKES: [Steps; 6] = [
    (
        "offer q 5",
        &[OFFER],
        None,
        &[Went, Ended],
        &[Event::Put(0, 5), Event::Ended(Outcome::Succeeded(0))],
        2,
    ),
    (
        "seq (offer q 5) (take q)",
        &[OFFER, TAKE, seq!(0, 1)],
        None,
        &[Went, Went, Went, Ended],
        &[
            Event::Put(0, 5),
            Event::Got(0, 5),
            Event::Ended(Outcome::Succeeded(5)),
        ],
        4,
    ),
    (
        "tryoffer q 5",
        &[Node::TryOffer(0, Arg::Number(5))],
        None,
        &[Went, Ended],
        &[Event::Put(0, 5), Event::Ended(Outcome::Succeeded(1))],
        2,
    ),
    (
        "tryoffer r 5, which is full",
        &[Node::TryOffer(1, Arg::Number(5))],
        None,
        &[Went, Ended],
        &[Event::Refused(1), Event::Ended(Outcome::Succeeded(0))],
        2,
    ),
    (
        "seq (offer q 5) (trytake q x (pure x) (pure 9))",
        &[
            OFFER,
            Node::Pure(Arg::Slot(0)),
            pure!(9),
            Node::TryTake(0, 0, NodeId(1), NodeId(2)),
            seq!(0, 3),
        ],
        None,
        &[Went, Went, Went, Went, Ended],
        &[
            Event::Put(0, 5),
            Event::Got(0, 5),
            Event::Ended(Outcome::Succeeded(5)),
        ],
        5,
    ),
    (
        "trytake q x (pure x) (pure 9), which is empty",
        &[
            Node::Pure(Arg::Slot(0)),
            pure!(9),
            Node::TryTake(0, 0, NodeId(0), NodeId(1)),
        ],
        None,
        &[Went, Went, Ended],
        &[Event::Empty(0), Event::Ended(Outcome::Succeeded(9))],
        3,
    ),
];

#[test]
fn puts_and_takes(rt: HostRuntime) -> Result<(), Fail> {
    assert_steps(&rt, rt.alloc(), &PUTS_AND_TAKES)
}

static WAITS: [Steps; 4] = [
    (
        "take q, which is empty",
        &[TAKE],
        None,
        &[Waits, Waits, Waits, Waits, Waits],
        &[],
        5,
    ),
    (
        "offer r 5, which is full",
        &[OFFER_IN_VAIN],
        None,
        &[Waits, Waits, Waits, Waits, Waits],
        &[],
        5,
    ),
    (
        "offer r 5, requested while it waits: nothing is put",
        &[OFFER_IN_VAIN],
        Some(2),
        &[Waits, Went, Went, Ended],
        SEEN,
        2,
    ),
    (
        "mask p (take q), requested, which is not seen",
        &[TAKE, mask!(0, 0)],
        Some(2),
        &[Went, Waits, Waits, Waits, Waits],
        &[],
        1,
    ),
];

#[test]
fn waits_for_queues(rt: HostRuntime) -> Result<(), Fail> {
    assert_steps(&rt, rt.alloc(), &WAITS)
}
