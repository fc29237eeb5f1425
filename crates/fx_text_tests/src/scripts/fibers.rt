//! Forms that start fibers and wait for them, and what the language says of each.
use super::*;

/// Names, parts and groups of these forms.
static REFUSED_FIBERS: [Refusal; 18] = [
    (
        b"(main (mask p (start h (poll p (pure 1)) (pure 2))))",
        7,
        29,
    ),
    (
        b"(main (mask p (start h (mask p (pure 1)) (pure 2))))",
        8,
        29,
    ),
    (b"(main (start h (cancel h) (pure 1)))", 7, 23),
    (b"(main (let x (pure 1) (cancel x)))", 7, 30),
    (b"(main (cancel h))", 7, 14),
    (b"(main (start h (pure 1) (pure h)))", 7, 30),
    (b"(main (start h (pure 1) (cancel 5)))", 6, 32),
    (b"(main (start h (pure 1) (first h)))", 6, 32),
    (b"(main (start h (pure 1) (first h k)))", 7, 33),
    (
        b"(main (start h (pure 1) (start h (pure 1) (pure 2))))",
        8,
        31,
    ),
    (b"(main (start h (pure 1) (join h x)))", 6, 32),
    (b"(main (start h (pure 1) (join h (pure 1))))", 6, 38),
    (b"(main (start h (pure 1) (join h (h (pure 1)))))", 8, 33),
    (
        b"(main (start h (pure 1) (join h (x (pure x) (pure 1)))))",
        6,
        44,
    ),
    (
        b"(main (start h (pure 1) (join h (x (pure x)) (e (pure x)))))",
        7,
        54,
    ),
    (
        b"(main (start h (pure 1) (join h (x (pure x)) (e (pure e)))))",
        6,
        57,
    ),
    (
        b"(main (start h (pure 1) (join h (x (pure x)) (e (pure e)) (pure x))))",
        7,
        64,
    ),
    (b"(main (start h (pure 1) (cancel h) (join h)))", 6, 35),
];

/// Forms that can start more than 4,095 fibers, and a fault that comes before their `)`.
static REFUSED_NEEDS: [Refusal; 7] = [
    (b"(main (for i 5000 (start h (pure i) (pure 0))))", 12, 6),
    (b"(main (for i 4096 (start h (cede) (cede))))", 12, 6),
    (
        b"(main (seq (cede) (for i 4096 (start h (cede) (cede))) (foo)))",
        12,
        18,
    ),
    (
        b"(main (seq (for i 4000 (start h (cede) (cede))) (for i 96 (start h (cede) (cede)))))",
        12,
        6,
    ),
    (
        b"(main (start h (for i 4095 (start k (cede) (cede))) (cede)))",
        12,
        6,
    ),
    (
        b"(main (if 0 (for i 4095 (start h (cede) (cede))) (for i 4096 (start h (cede) (cede)))))",
        12,
        49,
    ),
    (b"(main (for i 4096 (start h (cede) (cede)) (cede)))", 6, 42),
];

#[test]
fn refuses_what_is_no_script_of_fibers(rt: HostRuntime) {
    assert_refused(&rt, rt.alloc(), &REFUSED_FIBERS);
    assert_refused(&rt, rt.alloc(), &REFUSED_NEEDS);
}

/// Texts that are scripts, and how many fibers there can be.
static TOTALS: [(&[u8], u32); 9] = [
    (b"(main (cede))", 1),
    (b"(main (start h (pure 1) (cancel h)))", 2),
    (b"(main (start h (pure 1) (first h h)))", 2),
    (
        b"(main (start h (pure 1) (start k (cancel h) (first k h))))",
        3,
    ),
    (
        b"(main (mask p (start h (mask r (poll r (pure 1))) (poll p (pure 2)))))",
        2,
    ),
    (b"(main (for i 4095 (start h (pure i) (pure 0))))", 4096),
    (
        b"(main (if 0 (for i 4095 (start h (cede) (cede))) (for i 4095 (start h (cede) (cede)))))",
        4096,
    ),
    (
        b"(main (seq (for i 4000 (start h (cede) (cede))) (for i 95 (start h (cede) (cede)))))",
        4096,
    ),
    (
        b"(main (start h (start k (cede) (cede)) (join h (x (start k (cede) (cede))) (e (start k (cede) (start l (cede) (cede)))) (cede))))",
        5,
    ),
];

fn total(alloc: Global, text: &[u8]) -> Option<u32> {
    match parse(alloc, text) {
        Ok(script) => Some(script.total()),
        Err(_) => None,
    }
}

#[test]
fn counts_the_fibers(rt: HostRuntime) {
    for &(text, fibers) in &TOTALS {
        assert_eq!(rt; total(rt.alloc(), text), Some(fibers));
    }
}

/// So many starts one after another, in two turns, and the groups of a `join`, which have a parenthesis each.
static REPEATED_FIBERS: [Repeated; 4] = [
    (
        b"(main (for i 2 (seq",
        b"(start h (cede) (cede))",
        2047,
        b")))",
        None,
    ),
    (
        b"(main (for i 2 (seq",
        b"(start h (cede) (cede))",
        2048,
        b")))",
        Some((12, 6)),
    ),
    (
        b"(main ",
        b"(handle ",
        96,
        b"(start h (pure 1) (join h (x (pure x)) (e (pure e)) (pure 3)))",
        Some((11, 803)),
    ),
    (
        b"(main ",
        b"(handle ",
        95,
        b"(start h (pure 1) (join h (x (pure x)) (e (pure e)) (pure 3)))",
        Some((4, 828)),
    ),
];

#[test]
fn limits_fibers_and_groups(rt: HostRuntime) -> Result<(), Fail> {
    assert_repeated(&rt, rt.alloc(), &REPEATED_FIBERS)
}

static FIBER_NODES: [Nodes; 3] = [
    (
        b"(main (start h (pure 1) (cancel h)))",
        &[
            Node::Pure(Arg::Number(1)),
            Node::Cancel(0),
            Node::Start(0, NodeId(0), NodeId(1)),
        ],
    ),
    (
        b"(main (start h (pure 1) (start k (cancel h) (first k h))))",
        &[
            Node::Pure(Arg::Number(1)),
            Node::Cancel(0),
            Node::First(1, 0),
            Node::Start(1, NodeId(1), NodeId(2)),
            Node::Start(0, NodeId(0), NodeId(3)),
        ],
    ),
    (
        b"(main (start h (pure 1) (join h (x (pure x)) (e (raise e)) (pure 3))))",
        &[
            Node::Pure(Arg::Number(1)),
            Node::Pure(Arg::Slot(1)),
            Node::Raise(Arg::Slot(1)),
            Node::Pure(Arg::Number(3)),
            Node::Join(0, 1, NodeId(1), 1, NodeId(2), NodeId(3)),
            Node::Start(0, NodeId(0), NodeId(4)),
        ],
    ),
];

#[test]
fn makes_the_nodes_of_fibers(rt: HostRuntime) {
    for &(text, nodes) in &FIBER_NODES {
        assert!(rt; has_nodes(rt.alloc(), text, nodes));
    }
}

/// Parts and names of a race. A poll from outside is unknown in both parts, and its name stays taken.
static REFUSED_RACES: [Refusal; 8] = [
    (b"(main (mask p (race (poll p (cede)) (cede))))", 7, 26),
    (b"(main (mask p (race (cede) (poll p (cede)))))", 7, 33),
    (b"(main (mask p (race (mask p (cede)) (cede))))", 8, 26),
    (b"(main (race (cede)))", 6, 18),
    (b"(main (race (cede) (cede) (cede)))", 6, 26),
    (b"(main (race (pure l) (cede)))", 7, 18),
    (b"(main (race (cede) (cancel l)))", 7, 27),
    (b"(main (for i 2048 (race (cede) (cede))))", 12, 6),
];

/// Races, and how many fibers there can be.
static RACE_TOTALS: [(&[u8], u32); 4] = [
    (b"(main (race (cede) (cede)))", 3),
    (
        b"(main (race (start h (cede) (cede)) (race (cede) (cede))))",
        6,
    ),
    (
        b"(main (race (mask p (poll p (cede))) (let l (pure 2) (pure l))))",
        3,
    ),
    (b"(main (for i 2047 (race (cede) (cede))))", 4095),
];

#[test]
fn reads_races(rt: HostRuntime) {
    assert_refused(&rt, rt.alloc(), &REFUSED_RACES);
    for &(text, fibers) in &RACE_TOTALS {
        assert_eq!(rt; total(rt.alloc(), text), Some(fibers));
    }
}

const RACE: &[u8] = b"(main (let y (pure 7) (race (pure y) (let z (raise y) (pure z)))))";

/// The same, written out.
const WRITTEN_OUT: &[u8] =
    b"(main (let y (pure 7) (mask p (start l (pure y) (start r (let z (raise y) (pure z)) (let \
    w (oncancel (poll p (first l r)) (seq (cancel l) (cancel r))) (if w (join r (x (seq \
    (cancel l) (pure x))) (e (seq (cancel l) (raise e))) (oncancel (poll p (join l (x (pure \
    x)) (e (raise e)) (seq (canceled) (never)))) (seq (cancel l) (cancel r)))) (join l (x \
    (seq (cancel r) (pure x))) (e (seq (cancel r) (raise e))) (oncancel (poll p (join r (x \
    (pure x)) (e (raise e)) (seq (canceled) (never)))) (seq (cancel l) (cancel r)))))))))))";

/// Whether two texts have the same nodes.
fn have_same_nodes(alloc: Global, one: &[u8], other: &[u8]) -> bool {
    match (parse(alloc, one), parse(alloc, other)) {
        (Ok(one), Ok(other)) => {
            let len = one.code.len();
            len == other.code.len()
                && (0..len).all(|id| one.code.node(NodeId(id)) == other.code.node(NodeId(id)))
        }
        _ => false,
    }
}

#[test]
fn a_race_is_what_stands_for_it(rt: HostRuntime) {
    assert_eq!(rt;
        code_len(rt.alloc(), b"(main (race (cede) (cede)))"),
        Some(49)
    );
    assert!(rt; have_same_nodes(rt.alloc(), RACE, WRITTEN_OUT));
}
