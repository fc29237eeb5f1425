//! Nodes that offer and take.

use super::*;

const FIVE: Arg = Arg::Number(5);

macro_rules! try_take {
    ($slot:expr, $part:expr, $other:expr) => {
        Node::TryTake(0, $slot, NodeId($part), NodeId($other))
    };
}

/// A code: what it is, how many queues there are, its nodes, and its first fault.
type Case<'a> = (&'a str, u8, &'a [Node], Option<CodeFault>);

static CASES: [Case; 12] = [
    (
        "an offer to the one queue",
        1,
        &[Node::Offer(0, FIVE)],
        None,
    ),
    (
        "an offer to a queue past the last one",
        1,
        &[Node::Offer(1, FIVE)],
        Some(slot!(0)),
    ),
    (
        "a tryoffer where there is no queue",
        0,
        &[Node::TryOffer(0, FIVE)],
        Some(slot!(0)),
    ),
    ("a take from the last queue", 16, &[Node::Take(15)], None),
    ("a take past it", 16, &[Node::Take(16)], Some(slot!(0))),
    (
        "a trytake where there is no queue",
        0,
        &[ONE, ONE, try_take!(0, 0, 1)],
        Some(slot!(2)),
    ),
    (
        "an offer of a name that is not bound",
        1,
        &[Node::Offer(0, Arg::Slot(0))],
        Some(slot!(0)),
    ),
    (
        "a tryoffer of a fiber",
        1,
        &[ONE, Node::TryOffer(0, Arg::Slot(0)), start!(0, 0, 1)],
        Some(kind!(1)),
    ),
    (
        "an offer of a fiber to no queue",
        0,
        &[ONE, Node::Offer(0, Arg::Slot(0)), start!(0, 0, 1)],
        Some(slot!(1)),
    ),
    (
        "a trytake that gives its element",
        1,
        &[name!(0), ONE, try_take!(0, 0, 1)],
        None,
    ),
    (
        "a trytake whose other part gives it",
        1,
        &[ONE, name!(0), try_take!(0, 0, 1)],
        Some(slot!(1)),
    ),
    (
        "a trytake that skips a slot",
        1,
        &[ONE, ONE, try_take!(1, 0, 1)],
        Some(slot!(2)),
    ),
];

#[test]
fn knows_queues(rt: HostRuntime) -> Result<(), Fail> {
    for &(what, queues, nodes, fault) in &CASES {
        let nodes = Vec::from_slice(rt.alloc(), nodes)?;
        assert_eq!(rt;
            Code::build(rt.alloc(), nodes, queues).err(),
            fault,
            "{what}"
        );
    }
    Ok(())
}

#[test]
fn trytake_needs_what_one_part_does(rt: HostRuntime) -> Result<(), Fail> {
    let nodes = [
        ONE,
        ONE,
        start!(1, 0, 1),
        ONE,
        ONE,
        start!(0, 3, 4),
        try_take!(0, 2, 5),
    ];
    let code = Code::build(rt.alloc(), Vec::from_slice(rt.alloc(), &nodes)?, 1)?;
    assert_eq!(rt; code.need(code.root()), 1);
    Ok(())
}
