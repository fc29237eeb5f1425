//! Scripts, and what the language says of each.
use crate::repeated::repeated;
use fx_term::{Arg, Node, NodeId};
use fx_text::{TextFault, TextKind, parse};
use std::alloc::{AllocError, Global};
use std::process::Abort;
use std::test::Fail;

mod fibers;
mod queues;

/// A text that is refused, the number of the fault's kind, and the byte that it is at.
type Refusal<'a> = (&'a [u8], u8, u32);

static REFUSED: [Refusal; 35] = [
    (b"(main (pure 5))\0", 2, 15),
    (b"(main (pure 18446744073709551616))", 3, 12),
    (b"(main (pure 5) 5a", 3, 15),
    (b"(main (foo))", 5, 7),
    (b"main", 5, 0),
    (b"(main (pure))", 6, 11),
    (b"(main (let x (pure 1) (pure x) (pure 2)))", 6, 31),
    (b"(main (pure x))", 7, 12),
    (b"(main (let x (pure x) (pure 1)))", 7, 19),
    (b"(main (let x (pure 1) (let x (pure 2) (pure x))))", 8, 27),
    (b"(main (poll p (pure 1)))", 7, 12),
    (b"(main (poll 5 (pure 1)))", 6, 12),
    (b"(main (mask p (pure p)))", 7, 20),
    (b"(main (let x (pure 1) (poll x (pure 2))))", 7, 28),
    (b"(main (mask p (mask p (pure 1))))", 8, 20),
    (b"(main (mask (pure 1)))", 6, 12),
    (b"(main (seq))", 6, 10),
    (b"(main (seq (pure 1) 5))", 6, 20),
    (b"(main (seq (pure 1)", 4, 19),
    (b"(main (oncancel (pure 1)))", 6, 24),
    (b"(main (oncancel (pure 1) (pure 2) (pure 3)))", 6, 34),
    (b"(main (cede 1))", 6, 12),
    (b"(main (never 1))", 6, 13),
    (b"(main (if 1 (cede)))", 6, 18),
    (b"(main (mask p (if p (pure 1) (pure 2))))", 7, 18),
    (b"(main (for i x (cede)))", 6, 13),
    (b"(main (for i 2 (for i 2 (cede))))", 8, 20),
    (b"(main (for i 2 (poll i (cede))))", 7, 21),
    (b"(main (bracket x (pure x) (pure x) (pure x)))", 7, 23),
    (
        b"(main (let x (pure 1) (bracket x (pure 1) (pure 1) (pure 1))))",
        8,
        31,
    ),
    (
        b"(main (seq (bracket x (pure 1) (pure x) (pure x)) (pure x)))",
        7,
        56,
    ),
    (b"(main (guarantee (cede)))", 6, 23),
    (b"(main (forcer (cede)))", 6, 20),
    (b"(main (pure 5)) 1", 13, 16),
    (b"(main (pure 5)) (main (pure 5))", 13, 16),
];

static REFUSED_BRACKET_CASES: [Refusal; 7] = [
    (
        b"(main (bracketcase x (pure x) (cede) (y (cede)) (z (cede)) (cede)))",
        7,
        27,
    ),
    (
        b"(main (bracketcase x (pure 1) (pure 2) (y (pure y)) (z (pure y)) (pure x)))",
        7,
        61,
    ),
    (
        b"(main (bracketcase x (cede) (cede) (y (cede)) (z (cede)) (pure z)))",
        7,
        63,
    ),
    (
        b"(main (bracketcase x (cede) (cede) (x (cede)) (z (cede)) (cede)))",
        8,
        36,
    ),
    (
        b"(main (bracketcase x (cede) (cede) (y (cede)) (x (cede)) (cede)))",
        8,
        47,
    ),
    (
        b"(main (bracketcase x (cede) (cede) (y (cede)) 5 (cede)))",
        6,
        46,
    ),
    (
        b"(main (bracketcase x (cede) (cede) (y (cede)) (z (cede))))",
        6,
        56,
    ),
];

static REFUSED_USING: [Refusal; 11] = [
    (b"(main (using x (pure 1)))", 6, 13),
    (b"(main (using () (pure 1)))", 6, 14),
    (b"(main (using (() ) (pure 1)))", 6, 15),
    (b"(main (using ((x)) (pure 1)))", 6, 16),
    (b"(main (using ((x (pure 1))) (pure 1)))", 6, 25),
    (
        b"(main (using ((x (pure 1) (pure 2) (pure 3))) (pure 1)))",
        6,
        35,
    ),
    (b"(main (using ((x (pure 1) (pure 2)) y) (pure 1)))", 6, 36),
    (b"(main (using ((x (pure 1) (pure x)))))", 6, 36),
    (b"(main (using ((x (pure x) (pure 1))) (pure x)))", 7, 23),
    (
        b"(main (using ((x (pure 1) (pure x)) (x (pure 2) (pure x))) (pure x)))",
        8,
        37,
    ),
    (
        b"(main (seq (using ((x (pure 1) (pure x))) (pure x)) (pure x)))",
        7,
        58,
    ),
];

/// Texts whose loops have too many turns.
static REFUSED_TURNS: [Refusal; 8] = [
    (b"(main (for i 1000001 (cede)))", 9, 13),
    (b"(main (for i 1000 (for j 1001 (cede))))", 9, 25),
    (b"(main (for i 0 (for j 1000001 (cede))))", 9, 22),
    (
        b"(main (for i 1000000 (for j 18446744073709551615 (cede))))",
        9,
        28,
    ),
    (
        b"(main (for i 1000 (oncancel (cede) (for j 1001 (cede)))))",
        9,
        42,
    ),
    (
        b"(main (for i 1000 (bracket x (pure 1) (pure x) (for j 1001 (cede)))))",
        9,
        54,
    ),
    (
        b"(main (for i 1000 (using ((x (pure 1) (for j 1001 (cede)))) (pure x))))",
        9,
        45,
    ),
    (
        b"(main (for i 1000 (mask p (poll p (for j 1001 (cede))))))",
        9,
        41,
    ),
];

/// Texts that are scripts.
static ACCEPTED: [&[u8]; 9] = [
    b"(main (pure 5))",
    b"(main (for i 0 (for j 1000000 (cede))))",
    b"(main (for i 1000 (for j 1000 (pure i))))",
    b"(main (seq (for i 1000000 (cede)) (for i 1000000 (cede))))",
    b"(main (for i 1000 (seq (for j 1000 (cede)) (for j 1000 (cede)))))",
    b"(main (bracket x (pure 1) (pure x) (pure x)))",
    b"(main (using ((x (pure 1) (pure x))) (pure x)))",
    b"(main (using ((x (pure 1) (pure x)) (y (pure x) (pure y))) (let z (pure x) (pure y))))",
    b"(main (using ((x (pure 1) (let y (pure x) (pure y))) (y (pure 2) (pure x))) (pure y)))",
];

/// The first bytes of a script.
static FIRST_BYTES: [Refusal; 15] = [
    (b"", 13, 0),
    (b"(", 4, 1),
    (b"(m", 5, 1),
    (b"(ma", 5, 1),
    (b"(mai", 5, 1),
    (b"(main", 4, 5),
    (b"(main ", 4, 6),
    (b"(main (", 4, 7),
    (b"(main (p", 5, 7),
    (b"(main (pu", 5, 7),
    (b"(main (pur", 5, 7),
    (b"(main (pure", 4, 11),
    (b"(main (pure ", 4, 12),
    (b"(main (pure 5", 4, 13),
    (b"(main (pure 5)", 4, 14),
];

/// The number of the fault's kind and where it is, or `None` for a script.
fn refusal(alloc: Global, text: &[u8]) -> Option<(u8, u32)> {
    match parse(alloc, text) {
        Ok(_) => None,
        Err(fault) => Some((fault.number(), fault.at)),
    }
}

/// Whether these are the nodes of the text's code.
fn has_nodes(alloc: Global, text: &[u8], nodes: &[Node]) -> bool {
    match parse(alloc, text) {
        Ok(script) => {
            script.code.len() as usize == nodes.len()
                && nodes
                    .iter()
                    .enumerate()
                    .all(|(id, node)| script.code.node(NodeId(id as u32)) == node)
        }
        Err(_) => false,
    }
}

fn assert_refused(rt: &impl Abort, alloc: Global, rows: &[Refusal]) {
    for &(text, kind, at) in rows {
        assert_eq!(rt; refusal(alloc, text), Some((kind, at)));
    }
}

#[test]
fn refuses_what_is_no_script(rt: HostRuntime) {
    assert_refused(&rt, rt.alloc(), &REFUSED);
    assert_refused(&rt, rt.alloc(), &REFUSED_BRACKET_CASES);
    assert_refused(&rt, rt.alloc(), &REFUSED_USING);
    assert_refused(&rt, rt.alloc(), &FIRST_BYTES);
}

#[test]
fn limits_the_turns_of_loops(rt: HostRuntime) {
    assert_refused(&rt, rt.alloc(), &REFUSED_TURNS);
}

#[test]
fn accepts_scripts(rt: HostRuntime) {
    for &text in &ACCEPTED {
        assert_eq!(rt; refusal(rt.alloc(), text), None);
    }
}

/// A piece so many times between two others, and the refusal of that text, if it is refused.
type Repeated<'a> = (&'a [u8], &'a [u8], usize, &'a [u8], Option<(u8, u32)>);

fn assert_repeated(rt: &impl Abort, alloc: Global, rows: &[Repeated]) -> Result<(), Fail> {
    for &(before, piece, times, after, refused) in rows {
        let text = repeated(alloc, before, piece, times, after)?;
        assert_eq!(rt; refusal(alloc, &text), refused);
    }
    Ok(())
}

static LENGTHS: [Repeated; 5] = [
    (b"", b" ", 65537, b"", Some((1, 65536))),
    (b"", b" ", 65536, b"", Some((13, 65536))),
    (b"(main (pure 5))", b"\n", 65521, b"", None),
    (b"(main (pure 5))", b"\n", 65522, b"", Some((1, 65536))),
    (
        b"(main (seq ",
        b"(pure 1)",
        8190,
        b") )   ",
        Some((1, 65536)),
    ),
];

#[test]
fn limits_the_length(rt: HostRuntime) -> Result<(), Fail> {
    assert_repeated(&rt, rt.alloc(), &LENGTHS)
}

const USING: &[u8] = b"(using ((x (pure 1) (pure x))) (seq (seq (pure x))))";

/// The list of resources and each resource have a parenthesis of their own; what uses them stands in
/// neither.
static TOO_DEEP: [Repeated; 10] = [
    (b"(main ", b"(handle ", 100, b"", Some((11, 798))),
    (b"(main ", b"(handle ", 99, b"", Some((4, 798))),
    (b"(main ", b"(oncancel ", 100, b"", Some((11, 996))),
    (b"(main ", b"(oncancel ", 99, b"", Some((4, 996))),
    (
        b"(main ",
        b"(handle ",
        95,
        b"(using ((x (seq (pure 1)) (pure x))) (pure x))",
        Some((11, 782)),
    ),
    (
        b"(main ",
        b"(handle ",
        95,
        b"(using ((x (pure 1) (seq (pure x)))) (pure x))",
        Some((11, 791)),
    ),
    (b"(main ", b"(handle ", 96, USING, Some((11, 785))),
    (b"(main ", b"(handle ", 97, USING, Some((11, 790))),
    (b"(main ", b"(handle ", 98, USING, Some((11, 797))),
    (b"(main ", b"(handle ", 98, b"(using 5", Some((6, 797))),
];

#[test]
fn limits_the_open_parentheses(rt: HostRuntime) -> Result<(), Fail> {
    assert_repeated(&rt, rt.alloc(), &TOO_DEEP)
}

#[test]
fn takes_as_many_open_parentheses_as_allowed(rt: HostRuntime) -> Result<(), Fail> {
    let cases: [(usize, &[u8]); 2] = [(98, b"(pure 1)"), (95, USING)];
    for (times, part) in cases {
        let deepest = repeated(rt.alloc(), b"(main ", b"(handle ", times, part)?;
        let text = repeated(rt.alloc(), &deepest, b" e (pure e))", times, b")")?;
        assert_eq!(rt; refusal(rt.alloc(), &text), None);
    }
    Ok(())
}

/// How many nodes the code of a script has that names no queue.
fn code_len(alloc: Global, text: &[u8]) -> Option<u32> {
    match parse(alloc, text) {
        Ok(script) => script.queues.is_empty().then_some(script.code.len()),
        Err(_) => None,
    }
}

/// Texts, and how many nodes their codes have.
static CODES: [(&[u8], u32); 2] = [
    (
        b"(main (let x (let x (pure 1) (pure x)) (handle (raise x) y (pure y))))",
        7,
    ),
    (b"\t(main\r\n(canceled ) )", 1),
];

#[test]
fn reads_scripts(rt: HostRuntime) {
    for &(text, len) in &CODES {
        assert_eq!(rt; code_len(rt.alloc(), text), Some(len));
    }
}

/// A text, and the nodes of its code.
type Nodes<'a> = (&'a [u8], &'a [Node]);

static NODES: [Nodes; 13] = [
    (b"(main (seq (pure 1)))", &[Node::Pure(Arg::Number(1))]),
    (
        b"(main (seq (pure 1) (pure 2) (pure 3)))",
        &[
            Node::Pure(Arg::Number(1)),
            Node::Pure(Arg::Number(2)),
            Node::Pure(Arg::Number(3)),
            Node::Let(None, NodeId(1), NodeId(2)),
            Node::Let(None, NodeId(0), NodeId(3)),
        ],
    ),
    (
        b"(main (mask p (poll p (canceled))))",
        &[
            Node::Canceled,
            Node::Poll(0, NodeId(0)),
            Node::Mask(0, NodeId(1)),
        ],
    ),
    (
        b"(main (oncancel (canceled) (raise 9)))",
        &[
            Node::Canceled,
            Node::Raise(Arg::Number(9)),
            Node::OnCancel(NodeId(0), NodeId(1)),
        ],
    ),
    (b"(main (never))", &[Node::Never]),
    (b"(main (cede))", &[Node::Cede]),
    (
        b"(main (if 1 (never) (cede)))",
        &[
            Node::Never,
            Node::Cede,
            Node::If(Arg::Number(1), NodeId(0), NodeId(1)),
        ],
    ),
    (
        b"(main (for i 3 (pure i)))",
        &[Node::Pure(Arg::Slot(0)), Node::For(0, 3, NodeId(0))],
    ),
    (
        b"(main (forcer (raise 1) (cede)))",
        &[
            Node::Raise(Arg::Number(1)),
            Node::Pure(Arg::Number(0)),
            Node::Handle(NodeId(0), None, NodeId(1)),
            Node::Cede,
            Node::Let(None, NodeId(2), NodeId(3)),
        ],
    ),
    (
        b"(main (bracket x (pure 1) (raise x) (pure x)))",
        &[
            Node::Pure(Arg::Number(1)),
            Node::Raise(Arg::Slot(0)),
            Node::Pure(Arg::Slot(0)),
            Node::Bracket(Some(0), NodeId(0), NodeId(1), NodeId(2)),
        ],
    ),
    (
        b"(main (bracketcase x (pure 1) (raise x) (y (pure y)) (y (raise y)) (pure x)))",
        &[
            Node::Pure(Arg::Number(1)),
            Node::Raise(Arg::Slot(0)),
            Node::Pure(Arg::Slot(1)),
            Node::Raise(Arg::Slot(1)),
            Node::Pure(Arg::Slot(0)),
            Node::BracketCase(
                0,
                NodeId(0),
                NodeId(1),
                1,
                NodeId(2),
                1,
                NodeId(3),
                NodeId(4),
            ),
        ],
    ),
    (
        b"(main (guarantee (cede) (never)))",
        &[
            Node::Cede,
            Node::Never,
            Node::Pure(Arg::Number(0)),
            Node::Bracket(None, NodeId(2), NodeId(0), NodeId(1)),
        ],
    ),
    (
        b"(main (using ((x (pure 1) (raise x)) (y (pure x) (raise y))) (pure y)))",
        &[
            Node::Pure(Arg::Number(1)),
            Node::Raise(Arg::Slot(0)),
            Node::Pure(Arg::Slot(0)),
            Node::Raise(Arg::Slot(1)),
            Node::Pure(Arg::Slot(1)),
            Node::Bracket(Some(1), NodeId(2), NodeId(4), NodeId(3)),
            Node::Bracket(Some(0), NodeId(0), NodeId(5), NodeId(1)),
        ],
    ),
];

#[test]
fn makes_the_nodes_of_each_form(rt: HostRuntime) {
    for &(text, nodes) in &NODES {
        assert!(rt; has_nodes(rt.alloc(), text, nodes));
    }
}

/// As many parts of `(pure 1)` as a text can have.
#[test]
fn reads_the_longest_sequence(rt: HostRuntime) -> Result<(), Fail> {
    let longest = repeated(rt.alloc(), b"(main (seq", b"(pure 1)", 8190, b") )   ")?;
    assert_eq!(rt;
        (longest.len(), code_len(rt.alloc(), &longest)),
        (65536, Some(16379))
    );
    Ok(())
}

/// A `using` of so many resources, named aaa, aab and so on.
fn many_resources(alloc: Global, many: usize) -> Result<Vec<u8>, AllocError> {
    let mut text = Vec::new(alloc);
    text.extend_from_slice(b"(main(using(")?;
    for i in 0..many {
        let name = [
            b'a' + (i / 676 % 26) as u8,
            b'a' + (i / 26 % 26) as u8,
            b'a' + (i % 26) as u8,
        ];
        text.extend_from_slice(b"(")?;
        text.extend_from_slice(&name)?;
        text.extend_from_slice(b"(cede)(cede))")?;
    }
    text.extend_from_slice(b")(cede)))")?;
    Ok(text)
}

/// As many resources as a text can have with names of three letters, and one more.
#[test]
fn reads_the_most_resources(rt: HostRuntime) -> Result<(), Fail> {
    for (many, len, nodes) in [(3853, 65522, Some(11560)), (3854, 65539, None)] {
        let text = many_resources(rt.alloc(), many)?;
        assert_eq!(rt; (text.len(), code_len(rt.alloc(), &text)), (len, nodes));
    }
    Ok(())
}

#[test]
fn says_what_is_wrong(rt: HostRuntime) -> Result<(), Fail> {
    let unknown = TextFault {
        kind: TextKind::Unknown,
        at: 12,
    };
    assert_eq!(rt; unknown.number(), 7);
    assert_eq!(rt;
        format!(in rt.alloc(); "{unknown}")?.as_str(),
        "at byte 12: no such name of this kind is in scope"
    );
    Ok(())
}
