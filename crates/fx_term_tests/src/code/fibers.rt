//! Nodes that start fibers and wait for them.

use super::*;

/// Nodes: what they are, and their first fault, if they have one.
type Judged<'a> = (&'a str, &'a [Node], Option<CodeFault>);

fn assert_judged(rt: &impl Abort, alloc: Global, rows: &[Judged]) {
    for &(what, nodes, fault) in rows {
        assert_eq!(rt; built(alloc, nodes).err(), fault, "{what}");
    }
}

static POLLS: [Judged; 8] = [
    (
        "a poll inside the first part of a start in its mask",
        &[ONE, poll!(0, 0), ONE, start!(1, 1, 2), mask!(0, 3)],
        Some(kind!(1)),
    ),
    (
        "a poll two fibers further in",
        &[
            ONE,
            poll!(0, 0),
            ONE,
            start!(1, 1, 2),
            ONE,
            start!(1, 3, 4),
            mask!(0, 5),
        ],
        Some(kind!(1)),
    ),
    (
        "a binder with the slot of another fiber's poll",
        &[
            ONE,
            name!(0),
            bind!(0, 0, 1),
            ONE,
            start!(1, 2, 3),
            mask!(0, 4),
        ],
        Some(slot!(2)),
    ),
    (
        "the poll of a mask inside the first part, in another mask",
        &[
            ONE,
            poll!(1, 0),
            mask!(1, 1),
            ONE,
            start!(1, 2, 3),
            mask!(0, 4),
        ],
        None,
    ),
    (
        "a poll in the second part of a start in its mask",
        &[ONE, ONE, poll!(0, 1), start!(1, 0, 2), mask!(0, 3)],
        None,
    ),
    (
        "a poll after a start in its mask",
        &[
            ONE,
            ONE,
            start!(1, 0, 1),
            ONE,
            poll!(0, 3),
            seq!(2, 4),
            mask!(0, 5),
        ],
        None,
    ),
    (
        "a value of another fiber",
        &[ONE, name!(0), ONE, start!(1, 1, 2), bind!(0, 0, 3)],
        None,
    ),
    (
        "a fiber that another one started",
        &[ONE, Node::Cancel(0), ONE, start!(1, 1, 2), start!(0, 0, 3)],
        None,
    ),
];

#[test]
fn knows_polls_of_other_fibers(rt: HostRuntime) {
    assert_judged(&rt, rt.alloc(), &POLLS);
}

static NAMES: [Judged; 14] = [
    ("a start", &[ONE, ONE, start!(0, 0, 1)], None),
    (
        "a start that skips a slot",
        &[ONE, ONE, start!(1, 0, 1)],
        Some(slot!(2)),
    ),
    (
        "a fiber in its own part",
        &[Node::Cancel(0), ONE, start!(0, 0, 1)],
        Some(slot!(0)),
    ),
    (
        "a fiber as a value",
        &[ONE, name!(0), start!(0, 0, 1)],
        Some(kind!(1)),
    ),
    (
        "a fiber as a poll",
        &[ONE, ONE, poll!(0, 1), start!(0, 0, 2)],
        Some(kind!(2)),
    ),
    (
        "the cancellation of a value",
        &[ONE, Node::Cancel(0), bind!(0, 0, 1)],
        Some(kind!(1)),
    ),
    (
        "a join of a value",
        &[ONE, ONE, ONE, ONE, join!(1, 2, 3), bind!(0, 0, 4)],
        Some(kind!(4)),
    ),
    (
        "each group of a join",
        &[
            ONE,
            name!(1),
            Node::Raise(Arg::Slot(1)),
            CEDE,
            join!(1, 2, 3),
            start!(0, 0, 4),
        ],
        None,
    ),
    (
        "a join's name after cancellation",
        &[ONE, ONE, ONE, name!(1), join!(1, 2, 3), start!(0, 0, 4)],
        Some(slot!(3)),
    ),
    (
        "a join's first group before its second",
        &[
            ONE,
            name!(8),
            name!(9),
            ONE,
            join!(2, 1, 3),
            start!(0, 0, 4),
        ],
        Some(slot!(2)),
    ),
    (
        "the first of one fiber",
        &[ONE, Node::First(0, 0), start!(0, 0, 1)],
        None,
    ),
    (
        "the first of two fibers",
        &[
            ONE,
            ONE,
            Node::First(1, 0),
            start!(1, 1, 2),
            start!(0, 0, 3),
        ],
        None,
    ),
    (
        "the first of a fiber and a value",
        &[ONE, ONE, Node::First(0, 1), bind!(1, 1, 2), start!(0, 0, 3)],
        Some(kind!(2)),
    ),
    (
        "the started part before the other",
        &[name!(9), name!(8), start!(0, 1, 0)],
        Some(slot!(1)),
    ),
];

#[test]
fn knows_names_of_fibers(rt: HostRuntime) {
    assert_judged(&rt, rt.alloc(), &NAMES);
}
