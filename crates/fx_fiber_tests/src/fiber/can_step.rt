//! Where a fiber can step after so many steps, by what a run left.
ghost use Rattle.std.specs.Prelude.{◌≡◌};

use super::*;
use Outcome::{Canceled, Errored, Succeeded};

/// A fiber after so many steps: what it is called, its code, the steps, how fibers have ended by then,
/// and whether it can step where fiber 1 is requested, and where it is requested itself.
type Place<'a> = (
    &'a str,
    &'a [Node],
    u32,
    &'a [Option<Outcome>],
    (bool, bool),
);

/// The main fiber of a code after so many steps, or at its end.
fn fiber_after<J: CodeBrand>(
    alloc: Global,
    code: &Code,
    steps: u32,
) -> Result<Fiber<TestPort<J>>, Fail>
    requires { code.now.nodes ≡ J.nodes }
{
    let mut looks = Looks::new(None);
    let mut fiber = main_fiber::<J>(alloc, code)?;
    stepped(alloc, code, &mut fiber, &mut looks, steps)?;
    Ok(fiber)
}

/// Where fibers have ended so, and these are requested.
fn ended(
    alloc: Global,
    outcomes: &[Option<Outcome>],
    requested: &[bool],
) -> Result<Closed, AllocError> {
    Ok(Closed {
        caps: Vec::new(alloc),
        rests: Vec::new(alloc),
        outcomes: Vec::from_slice(alloc, outcomes)?,
        requested: Vec::from_slice(alloc, requested)?,
    })
}

fn answers<J: CodeBrand>(
    alloc: Global,
    code: &Code,
    steps: u32,
    outcomes: &[Option<Outcome>],
) -> Result<(bool, bool), Fail>
    requires { code.now.nodes ≡ J.nodes }
{
    let other = ended(alloc, outcomes, &[false, true])?;
    let itself = ended(alloc, outcomes, &[true])?;
    let fiber: Fiber<TestPort<J>> = fiber_after(alloc, code, steps)?;
    Ok((fiber.can_step(code, &other), fiber.can_step(code, &itself)))
}

fn answers_after(
    alloc: Global,
    nodes: &[Node],
    steps: u32,
    outcomes: &[Option<Outcome>],
) -> Result<(bool, bool), Fail> {
    let code = Code::build(alloc, Vec::from_slice(alloc, nodes)?, 0)?;
    answers::<Brand>(alloc, &code, steps, outcomes)
}

const NEVER: Node = Node::Never;

/// `start h (pure 1) (join h (x (pure 2)) (e (pure 3)) (pure 4))`.
const JOIN: &[Node] = &[
    pure!(1),
    pure!(2),
    pure!(3),
    pure!(4),
    Node::Join(0, 1, NodeId(1), 1, NodeId(2), NodeId(3)),
    start!(0, 0, 4),
];

/// `start h (pure 1) (start k (pure 2) (first h k))`.
const FIRST: &[Node] = &[
    pure!(1),
    pure!(2),
    Node::First(0, 1),
    start!(1, 1, 2),
    start!(0, 0, 3),
];

/// `start h (pure 1) (cancel h)`.
const CANCEL: &[Node] = &[pure!(1), Node::Cancel(0), start!(0, 0, 1)];

static PLACES: [Place; 17] = [
    ("pure 5", &[pure!(5)], 0, &[], (true, true)),
    ("pure 5, ended", &[pure!(5)], 2, &[], (false, false)),
    ("never", &[NEVER], 0, &[], (false, true)),
    (
        "never, in a let that is not entered",
        &[NEVER, pure!(1), seq!(0, 1)],
        0,
        &[],
        (false, true),
    ),
    (
        "never, under a mask",
        &[NEVER, mask!(0, 0)],
        1,
        &[],
        (false, false),
    ),
    (
        "never, under a mask inside its poll, known to be canceled",
        &[CANCELED, NEVER, poll!(0, 1), seq!(0, 2), mask!(0, 3)],
        4,
        &[],
        (true, true),
    ),
    (
        "never, in an acquire part that is not entered",
        &[NEVER, pure!(1), pure!(2), bracket!(None, 0, 1, 2)],
        0,
        &[],
        (false, false),
    ),
    (
        "oncancel canceled never, before its finalizer",
        &[CANCELED, NEVER, on_cancel!(0, 1)],
        1,
        &[],
        (true, true),
    ),
    (
        "oncancel canceled never, in its finalizer",
        &[CANCELED, NEVER, on_cancel!(0, 1)],
        2,
        &[],
        (false, false),
    ),
    ("join", JOIN, 1, &[], (false, true)),
    (
        "join, another has ended",
        JOIN,
        1,
        &[Some(Canceled)],
        (false, true),
    ),
    (
        "join, it has ended",
        JOIN,
        1,
        &[None, Some(Canceled)],
        (true, true),
    ),
    (
        "first, neither has ended",
        FIRST,
        2,
        &[None, None, None, Some(Canceled)],
        (false, true),
    ),
    (
        "first, the left one has ended",
        FIRST,
        2,
        &[None, Some(Succeeded(1)), None],
        (true, true),
    ),
    (
        "first, the right one has ended",
        FIRST,
        2,
        &[None, None, Some(Errored(3))],
        (true, true),
    ),
    (
        "cancel, requested and awaited",
        CANCEL,
        2,
        &[],
        (false, false),
    ),
    (
        "cancel, requested and ended",
        CANCEL,
        2,
        &[None, Some(Canceled)],
        (true, true),
    ),
];

#[test]
fn can_step(rt: HostRuntime) -> Result<(), Fail> {
    for &(row, nodes, steps, outcomes, wanted) in &PLACES {
        assert_eq!(rt;
            answers_after(rt.alloc(), nodes, steps, outcomes)?,
            wanted,
            "{row}"
        );
    }
    Ok(())
}

/// A fiber before its first step: what it is called, its code, the capacities of the queues and their
/// lengths, and whether it can step.
type AtQueue<'a> = (&'a str, &'a [Node], &'a [u32], &'a [u32], bool);

fn goes_on<J: CodeBrand>(
    alloc: Global,
    code: &Code,
    caps: &[u32],
    rests: &[u32],
) -> Result<bool, Fail>
    requires { code.now.nodes ≡ J.nodes }
{
    let closed = Closed {
        caps: Vec::from_slice(alloc, caps)?,
        rests: Vec::from_slice(alloc, rests)?,
        outcomes: Vec::new(alloc),
        requested: Vec::new(alloc),
    };
    let fiber: Fiber<TestPort<J>> = main_fiber(alloc, code)?;
    Ok(fiber.can_step(code, &closed))
}

fn goes_on_at(alloc: Global, nodes: &[Node], caps: &[u32], rests: &[u32]) -> Result<bool, Fail> {
    let code = Code::build(alloc, Vec::from_slice(alloc, nodes)?, 2)?;
    goes_on::<Brand>(alloc, &code, caps, rests)
}

static AT_QUEUES: [AtQueue; 7] = [
    (
        "offer, with room",
        &[Node::Offer(1, Arg::Number(5))],
        &[1, 2],
        &[1, 1],
        true,
    ),
    (
        "offer, full",
        &[Node::Offer(0, Arg::Number(5))],
        &[1, 2],
        &[1, 1],
        false,
    ),
    (
        "tryoffer, full",
        &[Node::TryOffer(0, Arg::Number(5))],
        &[1, 2],
        &[1, 1],
        true,
    ),
    (
        "take, with an element",
        &[Node::Take(1)],
        &[1, 2],
        &[0, 1],
        true,
    ),
    ("take, empty", &[Node::Take(0)], &[1, 2], &[0, 1], false),
    (
        "offer, past the lists",
        &[Node::Offer(1, Arg::Number(5))],
        &[1],
        &[0],
        false,
    ),
    ("take, past the lists", &[Node::Take(1)], &[1], &[1], false),
];

#[test]
fn can_step_at_queues(rt: HostRuntime) -> Result<(), Fail> {
    for &(row, nodes, caps, rests, wanted) in &AT_QUEUES {
        assert_eq!(rt;
            goes_on_at(rt.alloc(), nodes, caps, rests)?,
            wanted,
            "{row}"
        );
    }
    Ok(())
}
