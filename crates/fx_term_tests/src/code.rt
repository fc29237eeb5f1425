//! Codes and their first faults, from nodes made by hand.
ghost use Rattle.std.specs.Prelude.{◌≡◌, length, IfOk};

use fx_term::{Arg, Code, CodeFault, Node, NodeId, turns_of_loop};
use std::alloc::Global;
use std::process::Abort;
use std::test::Fail;

macro_rules! name {
    ($slot:expr) => { Node::Pure(Arg::Slot($slot)) };
}

macro_rules! seq {
    ($first:expr, $then:expr) => { Node::Let(None, NodeId($first), NodeId($then)) };
}

macro_rules! bind {
    ($slot:expr, $first:expr, $then:expr) => {
        Node::Let(Some($slot), NodeId($first), NodeId($then))
    };
}

macro_rules! handle {
    ($first:expr, $slot:expr, $then:expr) => {
        Node::Handle(NodeId($first), Some($slot), NodeId($then))
    };
}

macro_rules! mask {
    ($slot:expr, $part:expr) => { Node::Mask($slot, NodeId($part)) };
}

macro_rules! poll {
    ($slot:expr, $part:expr) => { Node::Poll($slot, NodeId($part)) };
}

macro_rules! on_cancel {
    ($part:expr, $finalizer:expr) => { Node::OnCancel(NodeId($part), NodeId($finalizer)) };
}

macro_rules! choose {
    ($arg:expr, $then:expr, $other:expr) => { Node::If($arg, NodeId($then), NodeId($other)) };
}

macro_rules! repeat {
    ($slot:expr, $count:expr, $part:expr) => { Node::For($slot, $count, NodeId($part)) };
}

macro_rules! bracket {
    ($slot:expr, $acquire:expr, $used:expr, $release:expr) => {
        Node::Bracket(Some($slot), NodeId($acquire), NodeId($used), NodeId($release))
    };
}

/// A release for each outcome, in whose releases the value or error has the next slot.
macro_rules! case {
    ($slot:expr, $acquire:expr, $used:expr, $success:expr, $failure:expr, $canceled:expr) => {
        Node::BracketCase(
            $slot,
            NodeId($acquire),
            NodeId($used),
            $slot + 1,
            NodeId($success),
            $slot + 1,
            NodeId($failure),
            NodeId($canceled),
        )
    };
}

macro_rules! start {
    ($slot:expr, $started:expr, $then:expr) => {
        Node::Start($slot, NodeId($started), NodeId($then))
    };
}

/// A join of the fiber of slot 0, the one name in scope.
macro_rules! join {
    ($succeeded:expr, $errored:expr, $canceled:expr) => {
        Node::Join(0, 1, NodeId($succeeded), 1, NodeId($errored), NodeId($canceled))
    };
}

macro_rules! child {
    ($id:expr) => { CodeFault::Child(NodeId($id)) };
}

macro_rules! slot {
    ($id:expr) => { CodeFault::Slot(NodeId($id)) };
}

macro_rules! kind {
    ($id:expr) => { CodeFault::Kind(NodeId($id)) };
}

macro_rules! limit {
    ($id:expr) => { CodeFault::Limit(NodeId($id)) };
}

mod fibers;
mod needs;
mod queues;

const ONE: Node = Node::Pure(Arg::Number(1));

const CANCELED: Node = Node::Canceled;

const CEDE: Node = Node::Cede;

fn built(alloc: Global, nodes: &[Node]) -> Result<Code, CodeFault>
    ensures { IfOk result (λ code. length code.nodes ≡ length nodes.now) }
{
    Code::build(alloc, Vec::from_slice(alloc, nodes)?, 0)
}

/// Nodes that are refused: what they are, and their first fault.
type Refused<'a> = (&'a str, &'a [Node], CodeFault);

fn assert_refused(rt: &impl Abort, alloc: Global, rows: &[Refused]) {
    for &(what, nodes, fault) in rows {
        assert_eq!(rt; built(alloc, nodes).err(), Some(fault), "{what}");
    }
}

static NO_TREES: [Refused; 16] = [
    ("no node", &[], child!(0)),
    ("a mask of itself", &[mask!(0, 0)], child!(0)),
    (
        "a poll of a later node",
        &[poll!(0, 1), CANCELED],
        child!(0),
    ),
    (
        "one part as its own finalizer",
        &[ONE, on_cancel!(0, 0)],
        child!(1),
    ),
    (
        "a part that is the finalizer of another",
        &[ONE, CANCELED, on_cancel!(0, 1), ONE, on_cancel!(3, 1)],
        child!(4),
    ),
    ("its own child", &[ONE, seq!(0, 1)], child!(1)),
    ("a child that is not there", &[ONE, seq!(0, 7)], child!(1)),
    (
        "a child after its parent",
        &[seq!(1, 2), ONE, CANCELED],
        child!(0),
    ),
    ("one child twice", &[ONE, CANCELED, seq!(0, 0)], child!(2)),
    (
        "a child of two nodes",
        &[ONE, CANCELED, seq!(0, 1), seq!(2, 1)],
        child!(3),
    ),
    (
        "nobody's child",
        &[ONE, CANCELED, ONE, seq!(0, 2)],
        child!(1),
    ),
    (
        "a child twice, before nobody's",
        &[ONE, CANCELED, seq!(1, 1)],
        child!(2),
    ),
    (
        "one part for both of an if",
        &[ONE, choose!(Arg::Number(1), 0, 0)],
        child!(1),
    ),
    ("a loop of itself", &[repeat!(0, 1, 0)], child!(0)),
    (
        "one part to use and to release",
        &[ONE, CEDE, bracket!(0, 0, 1, 1)],
        child!(2),
    ),
    (
        "one part to acquire and to release",
        &[ONE, CEDE, bracket!(0, 0, 1, 0)],
        child!(2),
    ),
];

#[test]
fn refuses_what_is_no_tree(rt: HostRuntime) {
    assert_refused(&rt, rt.alloc(), &NO_TREES);
}

static WRONG_SLOTS: [Refused; 30] = [
    ("a name that nothing binds", &[name!(0)], slot!(0)),
    (
        "a poll that nothing binds",
        &[CANCELED, poll!(0, 0)],
        slot!(1),
    ),
    (
        "a mask that skips a slot",
        &[CANCELED, mask!(1, 0)],
        slot!(1),
    ),
    (
        "an inner mask with the outer slot",
        &[CANCELED, mask!(0, 0), mask!(0, 1)],
        slot!(1),
    ),
    (
        "a poll after its mask",
        &[CANCELED, mask!(0, 0), ONE, poll!(0, 2), seq!(1, 3)],
        slot!(3),
    ),
    (
        "a binder in a mask with the mask's slot",
        &[ONE, ONE, bind!(0, 0, 1), mask!(0, 2)],
        slot!(2),
    ),
    (
        "a poll before its part",
        &[name!(9), poll!(3, 0), mask!(0, 1)],
        slot!(1),
    ),
    (
        "the first part of onCancel before the second",
        &[name!(9), name!(8), on_cancel!(1, 0)],
        slot!(1),
    ),
    (
        "a finalizer outside of its part's scope",
        &[ONE, name!(0), bind!(0, 0, 1), name!(0), on_cancel!(2, 3)],
        slot!(3),
    ),
    (
        "a binder that skips a slot",
        &[ONE, ONE, bind!(1, 0, 1)],
        slot!(2),
    ),
    (
        "a name in the part that gives it",
        &[name!(0), ONE, bind!(0, 0, 1)],
        slot!(0),
    ),
    (
        "an error's name in the part that raises it",
        &[Node::Raise(Arg::Slot(0)), ONE, handle!(0, 0, 1)],
        slot!(0),
    ),
    (
        "an inner binder with the outer slot",
        &[ONE, ONE, name!(0), bind!(0, 1, 2), bind!(0, 0, 3)],
        slot!(3),
    ),
    (
        "a name after its part",
        &[ONE, name!(0), bind!(0, 0, 1), name!(0), seq!(2, 3)],
        slot!(3),
    ),
    (
        "a parent before its child",
        &[name!(5), ONE, bind!(1, 0, 1)],
        slot!(2),
    ),
    (
        "the first part before the second",
        &[name!(9), name!(8), seq!(1, 0)],
        slot!(1),
    ),
    (
        "an if on a name that nothing binds",
        &[ONE, CEDE, choose!(Arg::Slot(0), 0, 1)],
        slot!(2),
    ),
    (
        "the second part of an if before the third",
        &[name!(9), name!(8), choose!(Arg::Number(1), 1, 0)],
        slot!(1),
    ),
    (
        "a loop that skips a slot",
        &[CEDE, repeat!(1, 2, 0)],
        slot!(1),
    ),
    (
        "an inner loop with the outer slot",
        &[CEDE, repeat!(0, 2, 0), repeat!(0, 2, 1)],
        slot!(1),
    ),
    (
        "a loop's name after its part",
        &[CEDE, repeat!(0, 2, 0), name!(0), seq!(1, 2)],
        slot!(2),
    ),
    (
        "a bracket that skips a slot",
        &[ONE, CEDE, CEDE, bracket!(1, 0, 1, 2)],
        slot!(3),
    ),
    (
        "a bracket's name in the part that acquires",
        &[name!(0), CEDE, CEDE, bracket!(0, 0, 1, 2)],
        slot!(0),
    ),
    (
        "another name in the part that uses",
        &[ONE, name!(1), CEDE, bracket!(0, 0, 1, 2)],
        slot!(1),
    ),
    (
        "another name in the part that releases",
        &[ONE, CEDE, name!(1), bracket!(0, 0, 1, 2)],
        slot!(2),
    ),
    (
        "the value of a use, with the slot of its resource, in the release for it",
        &[
            ONE,
            ONE,
            ONE,
            ONE,
            ONE,
            Node::BracketCase(
                0,
                NodeId(0),
                NodeId(1),
                0,
                NodeId(2),
                1,
                NodeId(3),
                NodeId(4),
            ),
        ],
        slot!(5),
    ),
    (
        "the error of a use in the release after cancellation",
        &[ONE, ONE, ONE, ONE, name!(1), case!(0, 0, 1, 2, 3, 4)],
        slot!(4),
    ),
    (
        "the part that acquires before those that use and release",
        &[name!(9), name!(8), name!(7), bracket!(0, 2, 1, 0)],
        slot!(2),
    ),
    (
        "the part that uses before the one that releases",
        &[name!(9), name!(8), ONE, bracket!(0, 2, 1, 0)],
        slot!(1),
    ),
    (
        "the tree before the slots",
        &[name!(0), ONE, CANCELED, seq!(0, 2)],
        child!(1),
    ),
];

#[test]
fn refuses_wrong_slots(rt: HostRuntime) {
    assert_refused(&rt, rt.alloc(), &WRONG_SLOTS);
}

static WRONG_KINDS: [Refused; 14] = [
    ("a poll as a value", &[name!(0), mask!(0, 0)], kind!(0)),
    (
        "a poll as an error",
        &[Node::Raise(Arg::Slot(0)), mask!(0, 0)],
        kind!(0),
    ),
    (
        "a value as a poll",
        &[ONE, CANCELED, poll!(0, 1), bind!(0, 0, 2)],
        kind!(2),
    ),
    (
        "an error as a poll",
        &[ONE, CANCELED, poll!(0, 1), handle!(0, 0, 2)],
        kind!(2),
    ),
    (
        "the outer name of two, where the inner is a poll",
        &[ONE, CANCELED, poll!(0, 1), mask!(1, 2), bind!(0, 0, 3)],
        kind!(2),
    ),
    (
        "a value's slot that was a poll's before",
        &[
            CANCELED,
            mask!(0, 0),
            ONE,
            CANCELED,
            poll!(0, 3),
            bind!(0, 2, 4),
            seq!(1, 5),
        ],
        kind!(4),
    ),
    (
        "a parent's kind before its child's slot",
        &[name!(9), poll!(0, 0), ONE, bind!(0, 2, 1)],
        kind!(1),
    ),
    (
        "the first part's kind before the second's slot",
        &[name!(9), name!(0), seq!(1, 0), mask!(0, 2)],
        kind!(1),
    ),
    (
        "the first part's slot before the second's kind",
        &[name!(0), name!(9), on_cancel!(1, 0), mask!(0, 2)],
        slot!(1),
    ),
    (
        "a poll as a value in a finalizer",
        &[name!(0), ONE, on_cancel!(1, 0), mask!(0, 2)],
        kind!(0),
    ),
    (
        "a poll as the value of an if",
        &[ONE, CEDE, choose!(Arg::Slot(0), 0, 1), mask!(0, 2)],
        kind!(2),
    ),
    (
        "a loop's number as a poll",
        &[CEDE, poll!(0, 0), repeat!(0, 2, 1)],
        kind!(1),
    ),
    (
        "what a bracket uses as a poll",
        &[ONE, CEDE, poll!(0, 1), CEDE, bracket!(0, 0, 2, 3)],
        kind!(2),
    ),
    (
        "what a bracket releases as a poll",
        &[ONE, CEDE, CEDE, poll!(0, 2), bracket!(0, 0, 1, 3)],
        kind!(3),
    ),
];

#[test]
fn refuses_wrong_kinds(rt: HostRuntime) {
    assert_refused(&rt, rt.alloc(), &WRONG_KINDS);
}

static TOO_MANY_TURNS: [Refused; 13] = [
    (
        "a turn too many",
        &[CEDE, repeat!(0, 1_000_001, 0)],
        limit!(1),
    ),
    (
        "1000 times 1001, at the inner loop",
        &[CEDE, repeat!(1, 1_001, 0), repeat!(0, 1_000, 1)],
        limit!(1),
    ),
    (
        "in a loop of no turn",
        &[CEDE, repeat!(1, 1_000_001, 0), repeat!(0, 0, 1)],
        limit!(1),
    ),
    (
        "a loop of no turn between two",
        &[
            CEDE,
            repeat!(2, 1_001, 0),
            repeat!(1, 0, 1),
            repeat!(0, 1_000, 2),
        ],
        limit!(1),
    ),
    (
        "more turns than 32 bits count",
        &[CEDE, repeat!(1, u32::MAX, 0), repeat!(0, 1_000, 1)],
        limit!(1),
    ),
    (
        "in a part that acquires",
        &[
            CEDE,
            repeat!(1, 1_000, 0),
            CEDE,
            CEDE,
            Node::Bracket(None, NodeId(1), NodeId(2), NodeId(3)),
            repeat!(0, 1_001, 4),
        ],
        limit!(1),
    ),
    (
        "in a part that releases",
        &[
            CEDE,
            CEDE,
            CEDE,
            repeat!(2, 1_000, 2),
            bracket!(1, 0, 1, 3),
            repeat!(0, 1_001, 4),
        ],
        limit!(3),
    ),
    (
        "in a finalizer, inside of a mask",
        &[
            ONE,
            CEDE,
            repeat!(2, 500_001, 1),
            on_cancel!(0, 2),
            mask!(1, 3),
            repeat!(0, 2, 4),
        ],
        limit!(2),
    ),
    (
        "a node's slot before its count",
        &[CEDE, repeat!(1, 1_000_001, 0)],
        slot!(1),
    ),
    (
        "a parent's count before its child's slot",
        &[name!(9), repeat!(0, 1_000_001, 0)],
        limit!(1),
    ),
    (
        "a parent's kind before its child's count",
        &[
            CEDE,
            repeat!(1, 1_000_001, 0),
            poll!(0, 1),
            repeat!(0, 2, 2),
        ],
        kind!(2),
    ),
    (
        "a parent's count before its child's",
        &[CEDE, repeat!(1, 1_000_001, 0), repeat!(0, 1_000_001, 1)],
        limit!(2),
    ),
    (
        "the first part's count before the second's slot",
        &[name!(9), CEDE, repeat!(0, 1_000_001, 1), seq!(2, 0)],
        limit!(2),
    ),
];

#[test]
fn refuses_too_many_turns(rt: HostRuntime) {
    assert_refused(&rt, rt.alloc(), &TOO_MANY_TURNS);
}

/// Codes, and what they are.
static MOST_TURNS: [(&str, &[Node]); 5] = [
    ("one loop", &[CEDE, repeat!(0, 1_000_000, 0)]),
    (
        "1000 times 1000",
        &[CEDE, repeat!(1, 1_000, 0), repeat!(0, 1_000, 1)],
    ),
    (
        "in a loop of no turn",
        &[CEDE, repeat!(1, 1_000_000, 0), repeat!(0, 0, 1)],
    ),
    (
        "loops beside one another",
        &[
            CEDE,
            repeat!(0, 1_000_000, 0),
            CEDE,
            repeat!(0, 1_000_000, 2),
            seq!(1, 3),
        ],
    ),
    (
        "each part of a bracket",
        &[
            CEDE,
            repeat!(1, 1_000, 0),
            CEDE,
            repeat!(2, 1_000, 2),
            CEDE,
            repeat!(2, 1_000, 4),
            bracket!(1, 1, 3, 5),
            repeat!(0, 1_000, 6),
        ],
    ),
];

#[test]
fn takes_as_many_turns_as_allowed(rt: HostRuntime) {
    for &(what, nodes) in &MOST_TURNS {
        assert_eq!(rt; built(rt.alloc(), nodes).err(), None, "{what}");
    }
}

static CODES: [&[Node]; 13] = [
    &[ONE],
    &[Node::Never],
    &[CEDE, Node::Never, choose!(Arg::Number(0), 0, 1)],
    &[
        CEDE,
        name!(0),
        choose!(Arg::Slot(0), 0, 1),
        repeat!(0, 2, 2),
    ],
    &[ONE, name!(0), name!(0), bracket!(0, 0, 1, 2)],
    &[
        ONE,
        name!(0),
        name!(1),
        name!(1),
        name!(0),
        case!(0, 0, 1, 2, 3, 4),
    ],
    &[
        ONE,
        CEDE,
        CANCELED,
        Node::Bracket(None, NodeId(2), NodeId(0), NodeId(1)),
    ],
    &[CANCELED, ONE, seq!(1, 0)],
    &[CANCELED, poll!(0, 0), mask!(0, 1)],
    &[CANCELED, poll!(0, 0), mask!(1, 1), mask!(0, 2)],
    &[ONE, CANCELED, on_cancel!(1, 0)],
    &[
        CANCELED,
        mask!(0, 0),
        ONE,
        name!(0),
        bind!(0, 2, 3),
        on_cancel!(1, 4),
    ],
    &[
        ONE,
        Node::Raise(Arg::Slot(0)),
        name!(1),
        handle!(1, 1, 2),
        bind!(0, 0, 3),
    ],
];

#[test]
fn keeps_the_nodes(rt: HostRuntime) -> Result<(), Fail> {
    for &nodes in &CODES {
        let code = built(rt.alloc(), nodes)?;
        assert_eq!(rt; code.len() as usize, nodes.len());
        assert_eq!(rt; code.root().0 as usize, nodes.len() - 1);
        for id in 0..code.len() {
            assert_eq!(rt; *code.node(NodeId(id)), nodes[id as usize], "node {id}");
        }
    }
    Ok(())
}

#[test]
fn takes_a_code_as_deep_as_it_is_long(rt: HostRuntime) -> Result<(), Fail> {
    let mut nodes = vec![in rt.alloc(); ONE]?;
    for part in 0..100_000u32 {
        nodes.push(ONE)?;
        nodes.push(seq!(2 * part, 2 * part + 1))?;
    }
    let code = Code::build(rt.alloc(), nodes, 0)?;
    assert_eq!(rt; code.root(), NodeId(200_000));
    Ok(())
}

#[test]
fn takes_masks_as_deep_as_the_code_is_long(rt: HostRuntime) -> Result<(), Fail> {
    let mut nodes = vec![in rt.alloc(); ONE]?;
    for part in 0..50_000u32 {
        nodes.push(poll!(0, part))?;
    }
    for part in 0..50_000u32 {
        nodes.push(mask!(49_999 - part, 50_000 + part))?;
    }
    let code = Code::build(rt.alloc(), nodes, 0)?;
    assert_eq!(rt; code.root(), NodeId(100_000));
    Ok(())
}

#[test]
fn says_what_is_wrong(rt: HostRuntime) -> Result<(), Fail> {
    let cases = [
        (
            child!(3),
            1,
            "node 3: a child that is not before its parent, or a node that is not one node's child",
        ),
        (
            slot!(4),
            2,
            "node 4: a slot that is not bound, a binder with a wrong slot, or no such queue",
        ),
        (
            kind!(5),
            3,
            "node 5: a slot that is that of a name of another kind",
        ),
        (CodeFault::Memory, 4, "out of memory"),
        (
            limit!(6),
            5,
            "node 6: a need above 4095, or a count that takes the turns of a part above 1000000",
        ),
    ];
    for (fault, number, text) in cases {
        assert_eq!(rt; fault.number(), number);
        assert_eq!(rt; fault.to_string(rt.alloc())?.as_str(), text);
    }
    Ok(())
}

#[test]
fn counts_the_turns_inside_a_loop(rt: HostRuntime) {
    let cases = [
        (1, 3, Some(3)),
        (7, 0, Some(7)),
        (1_000, 1_000, Some(1_000_000)),
        (1_000, 1_001, None),
        (2, u64::MAX, None),
    ];
    for (turns, count, inside) in cases {
        assert_eq!(rt;
            turns_of_loop(turns, count),
            inside,
            "{count} times {turns}"
        );
    }
}
