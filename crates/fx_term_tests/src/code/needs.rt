//! How many fiber numbers nodes can use.

use super::*;

/// Codes: what they are, and how many fiber numbers their roots need.
static NEEDS: [(&str, &[Node], u32); 15] = [
    ("no start", &[ONE, CEDE, seq!(0, 1)], 0),
    ("a start", &[ONE, CEDE, start!(0, 0, 1)], 1),
    (
        "a start after another, which knows the first",
        &[ONE, ONE, ONE, start!(1, 1, 2), start!(0, 0, 3)],
        2,
    ),
    (
        "a start in a started part",
        &[ONE, ONE, start!(0, 0, 1), ONE, start!(0, 2, 3)],
        2,
    ),
    (
        "both parts of a let",
        &[
            ONE,
            ONE,
            start!(0, 0, 1),
            ONE,
            ONE,
            start!(1, 3, 4),
            bind!(0, 2, 5),
        ],
        2,
    ),
    (
        "both parts of a handle",
        &[
            ONE,
            ONE,
            start!(0, 0, 1),
            ONE,
            ONE,
            start!(1, 3, 4),
            handle!(2, 0, 5),
        ],
        2,
    ),
    (
        "a part and its finalizer",
        &[
            ONE,
            ONE,
            start!(0, 0, 1),
            ONE,
            ONE,
            start!(0, 3, 4),
            on_cancel!(2, 5),
        ],
        2,
    ),
    (
        "the three parts of a bracket",
        &[
            ONE,
            ONE,
            start!(0, 0, 1),
            ONE,
            ONE,
            start!(1, 3, 4),
            ONE,
            ONE,
            start!(1, 6, 7),
            bracket!(0, 2, 5, 8),
        ],
        3,
    ),
    (
        "the parts of a bracketcase that acquire and use, and the greatest of its releases",
        &[
            ONE,
            ONE,
            start!(0, 0, 1),
            ONE,
            ONE,
            start!(1, 3, 4),
            ONE,
            ONE,
            ONE,
            ONE,
            start!(3, 8, 9),
            start!(2, 7, 10),
            ONE,
            case!(0, 2, 5, 6, 11, 12),
        ],
        4,
    ),
    (
        "the greater part of an if, which is the second",
        &[
            ONE,
            ONE,
            start!(0, 0, 1),
            ONE,
            ONE,
            ONE,
            start!(1, 4, 5),
            start!(0, 3, 6),
            choose!(Arg::Number(1), 2, 7),
        ],
        2,
    ),
    (
        "the greatest group of a join, which is the third",
        &[
            ONE,
            ONE,
            start!(2, 0, 1),
            ONE,
            ONE,
            ONE,
            ONE,
            start!(2, 5, 6),
            start!(1, 4, 7),
            join!(2, 3, 8),
            ONE,
            start!(0, 10, 9),
        ],
        3,
    ),
    (
        "each turn of a loop",
        &[ONE, ONE, start!(1, 0, 1), repeat!(0, 3, 2)],
        3,
    ),
    (
        "no turn of a loop",
        &[ONE, ONE, start!(1, 0, 1), repeat!(0, 0, 2)],
        0,
    ),
    (
        "a mask and a poll",
        &[ONE, ONE, start!(1, 0, 1), poll!(0, 2), mask!(0, 3)],
        1,
    ),
    (
        "the most",
        &[ONE, ONE, start!(1, 0, 1), repeat!(0, 4_095, 2)],
        4_095,
    ),
];

#[test]
fn counts_what_the_root_needs(rt: HostRuntime) -> Result<(), Fail> {
    for &(what, nodes, need) in &NEEDS {
        let code = built(rt.alloc(), nodes)?;
        assert_eq!(rt; code.need(code.root()), need, "{what}");
    }
    Ok(())
}

#[test]
fn knows_the_need_of_each_node(rt: HostRuntime) -> Result<(), Fail> {
    let nodes = [
        ONE,
        ONE,
        start!(1, 0, 1),
        repeat!(0, 3, 2),
        CEDE,
        seq!(3, 4),
    ];
    let code = built(rt.alloc(), &nodes)?;
    for (id, need) in [0, 0, 1, 3, 0, 3].into_iter().enumerate() {
        assert_eq!(rt; code.need(NodeId(id as u32)), need, "node {id}");
    }
    Ok(())
}

static TOO_LARGE: [Refused; 8] = [
    (
        "one fiber too many",
        &[ONE, ONE, start!(1, 0, 1), repeat!(0, 4_096, 2)],
        limit!(3),
    ),
    (
        "two fibers in each of 3000 turns",
        &[
            ONE,
            ONE,
            start!(1, 0, 1),
            ONE,
            start!(1, 2, 3),
            repeat!(0, 3_000, 4),
        ],
        limit!(5),
    ),
    (
        "in a loop of no turn, which needs none",
        &[
            ONE,
            ONE,
            start!(2, 0, 1),
            repeat!(1, 5_000, 2),
            repeat!(0, 0, 3),
        ],
        limit!(3),
    ),
    (
        "a parent that needs as much as its part",
        &[
            ONE,
            ONE,
            start!(2, 0, 1),
            repeat!(1, 5_000, 2),
            mask!(0, 3),
            ONE,
            seq!(4, 5),
        ],
        limit!(6),
    ),
    (
        "more than 32 bits count",
        &[
            ONE,
            ONE,
            start!(2, 0, 1),
            repeat!(1, u32::MAX, 2),
            repeat!(0, u32::MAX, 3),
        ],
        limit!(4),
    ),
    (
        "a node's slot before its need",
        &[ONE, ONE, start!(2, 0, 1), repeat!(1, 4_096, 2)],
        slot!(3),
    ),
    (
        "a node's kind before its need",
        &[
            ONE,
            ONE,
            start!(2, 0, 1),
            repeat!(1, 4_096, 2),
            poll!(0, 3),
            repeat!(0, 0, 4),
        ],
        kind!(4),
    ),
    (
        "a parent's need before its part's slot",
        &[ONE, ONE, start!(7, 0, 1), repeat!(0, 4_096, 2)],
        limit!(3),
    ),
];

#[test]
fn refuses_too_large_a_need(rt: HostRuntime) {
    assert_refused(&rt, rt.alloc(), &TOO_LARGE);
}

/// So many starts, each in the started part of the one before.
fn starts_inside(alloc: Global, starts: u32) -> Result<Vec<Node>, Fail> {
    let mut nodes = vec![in alloc; ONE]?;
    for inner in 0..starts {
        let started = inner.saturating_mul(2);
        nodes.push(ONE)?;
        nodes.push(start!(0, started, started.saturating_add(1)))?;
    }
    Ok(nodes)
}

#[test]
fn takes_starts_as_deep_as_there_are_numbers(rt: HostRuntime) -> Result<(), Fail> {
    let code = Code::build(rt.alloc(), starts_inside(rt.alloc(), 4_095)?, 0)?;
    assert_eq!(rt; code.need(code.root()), 4_095);
    let more = Code::build(rt.alloc(), starts_inside(rt.alloc(), 4_096)?, 0);
    assert_eq!(rt; more.err(), Some(limit!(8_192)));
    Ok(())
}
