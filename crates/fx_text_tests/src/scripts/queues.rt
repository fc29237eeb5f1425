//! Declarations of queues and the forms that use them, and what the language says of each.
use super::*;

/// Faults before main, and after it.
static REFUSED_AT_THE_TOP: [Refusal; 24] = [
    (b"(queue q 0) (main (pure 1))", 9, 9),
    (b"(queue q 1025) (main (pure 1))", 9, 9),
    (b"(queue q 18446744073709551616) (main (pure 1))", 3, 9),
    (b"(queue q 1x) (main (pure 1))", 3, 9),
    (b"(queue q 1) 1x", 3, 12),
    (b"(queue q 1) !", 2, 12),
    (b"(queue q!", 2, 8),
    (b"(queue q 1", 4, 10),
    (b"(queue q 1) (", 4, 13),
    (b"(queue q 1) queue", 5, 12),
    (b"(queue q 1) )", 5, 12),
    (b"1 (main (pure 1))", 5, 0),
    (b"(queue q 1) (pure 1)", 5, 13),
    (b"(q 1)", 5, 1),
    (b"((main (pure 1)))", 5, 1),
    (b"(queue 5 1) (main (pure 1))", 6, 7),
    (b"(queue) (main (pure 1))", 6, 6),
    (b"(queue q) (main (pure 1))", 6, 8),
    (b"(queue q x) (main (pure 1))", 6, 9),
    (b"(queue q (main (pure 1)))", 6, 9),
    (b"(queue q 1 2) (main (pure 1))", 6, 11),
    (b"(queue q 1) (queue q 2) (main (pure 1))", 8, 19),
    (b"(queue q 1)", 13, 11),
    (b"(main (pure 1)) (queue q 1)", 13, 16),
];

/// Parts and names of the forms.
static REFUSED_IN_MAIN: [Refusal; 17] = [
    (b"(queue q 1) (main (queue q))", 5, 19),
    (b"(queue q 1) (main (offer 5 1))", 6, 25),
    (b"(queue q 1) (main (offer q))", 6, 26),
    (b"(queue q 1) (main (tryoffer q 1 2))", 6, 32),
    (b"(queue q 1) (main (take q 1))", 6, 26),
    (b"(queue q 1) (main (trytake q (cede) (cede)))", 6, 29),
    (b"(queue q 1) (main (trytake q x (cede)))", 6, 37),
    (b"(main (take q))", 7, 12),
    (b"(queue q 1) (main (let x (pure 1) (take x)))", 7, 40),
    (b"(queue q 1) (main (start h (cede) (offer h 1)))", 7, 41),
    (b"(queue q 1) (main (offer q q))", 7, 27),
    (b"(queue q 1) (main (start h (cede) (cancel q)))", 7, 42),
    (b"(queue q 1) (main (mask p (poll q (cede))))", 7, 32),
    (b"(queue q 1) (main (trytake q x (pure x) (pure x)))", 7, 46),
    (b"(queue q 1) (main (let q (pure 1) (pure 2)))", 8, 23),
    (b"(queue q 1) (main (trytake q q (cede) (cede)))", 8, 29),
    (
        b"(queue q 1) (main (let x (pure 1) (trytake q x (cede) (cede))))",
        8,
        45,
    ),
];

/// As many queues as a script may have.
const SIXTEEN: &[u8] =
    b"(queue q0 1) (queue q1 1) (queue q2 1) (queue q3 1) (queue q4 1) (queue q5 1) \
    (queue q6 1) (queue q7 1) (queue q8 1) (queue q9 1) (queue q10 1) (queue q11 1) \
    (queue q12 1) (queue q13 1) (queue q14 1) (queue q15 1) ";

/// What comes after sixteen queues: a seventeenth is refused at its word, whatever comes then.
static AFTER_SIXTEEN: [Repeated; 5] = [
    (SIXTEEN, b"(queue q16 1) ", 0, b"(main (pure 1))", None),
    (
        SIXTEEN,
        b"(queue q16 1) ",
        1,
        b"(main (pure 1))",
        Some((10, 215)),
    ),
    (
        SIXTEEN,
        b"(queue q0 0) ",
        1,
        b"(main (pure 1))",
        Some((10, 215)),
    ),
    (SIXTEEN, b"(queue", 1, b"", Some((10, 215))),
    (SIXTEEN, b"(que", 1, b"", Some((5, 215))),
];

#[test]
fn refuses_what_is_no_script_of_queues(rt: HostRuntime) -> Result<(), Fail> {
    assert_refused(&rt, rt.alloc(), &REFUSED_AT_THE_TOP);
    assert_refused(&rt, rt.alloc(), &REFUSED_IN_MAIN);
    assert_repeated(&rt, rt.alloc(), &AFTER_SIXTEEN)
}

const SHORT: &[u8] = b"(queue q 12)(main(take q))";

/// What is wrong with the first bytes of that script, none, one and so on.
static CUT: [(u8, u32); 26] = [
    (13, 0),
    (4, 1),
    (5, 1),
    (5, 1),
    (5, 1),
    (5, 1),
    (4, 6),
    (4, 7),
    (4, 8),
    (4, 9),
    (4, 10),
    (4, 11),
    (13, 12),
    (4, 13),
    (5, 13),
    (5, 13),
    (5, 13),
    (4, 17),
    (4, 18),
    (5, 18),
    (5, 18),
    (5, 18),
    (4, 22),
    (4, 23),
    (4, 24),
    (4, 25),
];

#[test]
fn refuses_the_first_bytes_of_a_script(rt: HostRuntime) {
    for (len, &fault) in CUT.iter().enumerate() {
        assert_eq!(rt;
            refusal(rt.alloc(), &SHORT[..len.min(SHORT.len())]),
            Some(fault)
        );
    }
}

/// A text, and the names and capacities of its queues.
type Queues<'a> = (&'a [u8], &'a [(&'a str, u32)]);

static DECLARED: [Queues; 4] = [
    (b"(main (pure 5))", &[]),
    (SHORT, &[("q", 12)]),
    (
        b"(queue q 1) (queue main 01024)\n(main (cede))",
        &[("q", 1), ("main", 1024)],
    ),
    (
        b"(queue l 3) (queue queue 2) (main (race (offer l 1) (take queue)))",
        &[("l", 3), ("queue", 2)],
    ),
];

/// Whether these are the queues of the text.
fn has_queues(alloc: Global, text: &[u8], queues: &[(&str, u32)]) -> bool {
    match parse(alloc, text) {
        Ok(script) => {
            script.queues.len() == queues.len()
                && script.queues.iter().zip(queues).all(|(queue, &(name, cap))| queue.name.as_str()
                    == name
                    && queue.cap == cap)
        }
        Err(_) => false,
    }
}

#[test]
fn reads_queues(rt: HostRuntime) {
    for &(text, queues) in &DECLARED {
        assert!(rt; has_queues(rt.alloc(), text, queues));
    }
}

static QUEUE_NODES: [Nodes; 2] = [
    (
        b"(queue q 1) (queue r 2) (main (seq (offer r 7) (take q)))",
        &[
            Node::Offer(1, Arg::Number(7)),
            Node::Take(0),
            Node::Let(None, NodeId(0), NodeId(1)),
        ],
    ),
    (
        b"(queue q 1) (main (let x (tryoffer q 4) (trytake q y (offer q x) (tryoffer q x))))",
        &[
            Node::TryOffer(0, Arg::Number(4)),
            Node::Offer(0, Arg::Slot(0)),
            Node::TryOffer(0, Arg::Slot(0)),
            Node::TryTake(0, 1, NodeId(1), NodeId(2)),
            Node::Let(Some(0), NodeId(0), NodeId(3)),
        ],
    ),
];

#[test]
fn makes_the_nodes_of_queues(rt: HostRuntime) {
    for &(text, nodes) in &QUEUE_NODES {
        assert!(rt; has_nodes(rt.alloc(), text, nodes));
    }
}
