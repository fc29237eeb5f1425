//! The stamps of events: one more than the greater of the one before and that of what the fiber found.
ghost use Rattle.std.specs.Prelude.{◌≡◌};

use crate::outside::{Found, Outside, OutsidePort, Told};
use fx_fiber::{Fiber, Stepped, main_begin};
use fx_term::{Arg, Code, CodeBrand, Event, Memory, Node, NodeId, Outcome, Stamped};
use std::alloc::Global;
use std::marker::Brand;
use std::test::Fail;

macro_rules! at {
    ($stamp:expr, $event:expr) => { Stamped { event: $event, stamp: $stamp } };
}

macro_rules! seq {
    ($first:expr, $then:expr) => { Node::Let(None, NodeId($first), NodeId($then)) };
}

const NOTHING: Found = Found {
    request: None,
    end: None,
    element: None,
};

const UNTOLD: Told = Told {
    offer: None,
    request: None,
    start: None,
    finish: None,
};

const PURE: Node = Node::Pure(Arg::Number(5));

const OFFER: Node = Node::Offer(0, Arg::Number(5));

/// `offer q 5`, and then `pure 5`.
const OFFER_AND_END: &[Node] = &[OFFER, PURE, seq!(0, 1)];

/// `start h (pure 5) (seq (offer q 5) (join h (x (pure 5)) (e (pure 5)) (pure 5)))`.
const OFFER_AND_JOIN: &[Node] = &[
    PURE,
    PURE,
    PURE,
    PURE,
    Node::Join(0, 1, NodeId(1), 1, NodeId(2), NodeId(3)),
    OFFER,
    seq!(5, 4),
    Node::Start(0, NodeId(0), NodeId(6)),
];

/// `start h (pure 5) (cancel h)`.
const CANCEL: &[Node] = &[PURE, Node::Cancel(0), Node::Start(0, NodeId(0), NodeId(1))];

/// `seq (offer q 5) (start h (pure 5) (pure 5))`.
const OFFER_AND_START: &[Node] = &[
    PURE,
    PURE,
    Node::Start(0, NodeId(0), NodeId(1)),
    OFFER,
    seq!(3, 2),
];

const SUCCEEDED: Event = Event::Ended(Outcome::Succeeded(5));

const JOINED: Event = Event::Joined(1, Outcome::Succeeded(5));

/// A fiber that runs to its end: what its stamps show, its code, what it finds outside, its trace, and the
/// stamps that its port was told.
struct Row {
    what: &'static str,
    nodes: &'static [Node],
    found: Found,
    trace: &'static [Stamped],
    told: Told,
}

static ROWS: [Row; 8] = [
    Row {
        what: "stamps count up from 1 where nothing is found",
        nodes: OFFER_AND_END,
        found: NOTHING,
        trace: &[at!(1, Event::Put(0, 5)), at!(2, SUCCEEDED)],
        told: Told {
            offer: Some(1),
            finish: Some(2),
            ..UNTOLD
        },
    },
    Row {
        what: "a request from outside, which has the stamp 0, is seen after the last event",
        nodes: OFFER_AND_END,
        found: Found {
            request: Some(0),
            ..NOTHING
        },
        trace: &[
            at!(1, Event::Put(0, 5)),
            at!(2, Event::Seen),
            at!(3, Event::Cancelled),
            at!(4, Event::Ended(Outcome::Canceled)),
        ],
        told: Told {
            offer: Some(1),
            finish: Some(4),
            ..UNTOLD
        },
    },
    Row {
        what: "a request is seen after it was made",
        nodes: OFFER_AND_END,
        found: Found {
            request: Some(6),
            ..NOTHING
        },
        trace: &[
            at!(1, Event::Put(0, 5)),
            at!(7, Event::Seen),
            at!(8, Event::Cancelled),
            at!(9, Event::Ended(Outcome::Canceled)),
        ],
        told: Told {
            offer: Some(1),
            finish: Some(9),
            ..UNTOLD
        },
    },
    Row {
        what: "a fiber is joined after its end, whose stamp is greater than the last one",
        nodes: OFFER_AND_JOIN,
        found: Found {
            end: Some(9),
            ..NOTHING
        },
        trace: &[
            at!(1, Event::Start(1)),
            at!(2, Event::Put(0, 5)),
            at!(10, JOINED),
            at!(11, SUCCEEDED),
        ],
        told: Told {
            offer: Some(2),
            start: Some(1),
            finish: Some(11),
            ..UNTOLD
        },
    },
    Row {
        what: "the end of a fiber that was canceled is awaited, and the request has the stamp of its event",
        nodes: CANCEL,
        found: Found {
            end: Some(1),
            ..NOTHING
        },
        trace: &[
            at!(1, Event::Start(1)),
            at!(2, Event::Request(1)),
            at!(3, Event::Awaited(1)),
            at!(4, Event::Ended(Outcome::Succeeded(0))),
        ],
        told: Told {
            request: Some(2),
            start: Some(1),
            finish: Some(4),
            ..UNTOLD
        },
    },
    Row {
        what: "an element is taken after it was put",
        nodes: &[Node::Take(0)],
        found: Found {
            element: Some(7),
            ..NOTHING
        },
        trace: &[at!(8, Event::Got(0, 5)), at!(9, SUCCEEDED)],
        told: Told {
            finish: Some(9),
            ..UNTOLD
        },
    },
    Row {
        what: "stamps go on past 2^63",
        nodes: &[Node::Take(0)],
        found: Found {
            element: Some(9_223_372_036_854_775_808),
            ..NOTHING
        },
        trace: &[
            at!(9_223_372_036_854_775_809, Event::Got(0, 5)),
            at!(9_223_372_036_854_775_810, SUCCEEDED),
        ],
        told: Told {
            finish: Some(9_223_372_036_854_775_810),
            ..UNTOLD
        },
    },
    Row {
        what: "stamps stay at the greatest number",
        nodes: &[Node::Take(0)],
        found: Found {
            element: Some(18_446_744_073_709_551_615),
            ..NOTHING
        },
        trace: &[
            at!(18_446_744_073_709_551_615, Event::Got(0, 5)),
            at!(18_446_744_073_709_551_615, SUCCEEDED),
        ],
        told: Told {
            finish: Some(18_446_744_073_709_551_615),
            ..UNTOLD
        },
    },
];

/// The main fiber of a code, before its first step.
fn main_fiber<J: CodeBrand>(alloc: Global, code: &Code) -> Result<Fiber<OutsidePort<J>>, Memory>
    requires { code.now.nodes ≡ J.nodes }
{
    let port: OutsidePort<J> = OutsidePort::new(alloc, 0, main_begin(alloc, code));
    Fiber::new(alloc, code, port)
}

/// Lets a fiber make nine steps, or as many as there are to its end: the fiber that it started last.
fn goes_on<J: CodeBrand>(
    fiber: &mut Fiber<OutsidePort<J>>,
    code: &Code,
    outside: &mut Outside,
) -> Result<Option<Fiber<OutsidePort<J>>>, Memory>
    requires { code.now.nodes ≡ J.nodes }
{
    let mut started = None;
    for _ in 0..9u32 {
        if fiber.has_ended() {
            break;
        }
        if let Stepped::Child(child) = fiber.step(code, outside)? {
            started = Some(child);
        }
    }
    Ok(started)
}

/// Whose trace is to be seen: that of the main fiber, or of the child that it starts, which runs after it.
#[derive(Clone, Copy)]
enum Whose {
    Main,
    Child,
}

/// The trace of a fiber of a code, and the stamps that its port was told.
fn traced<J: CodeBrand>(
    alloc: Global,
    code: &Code,
    found: Found,
    whose: Whose,
) -> Result<(Vec<Stamped>, Told), Fail>
    requires { code.now.nodes ≡ J.nodes }
{
    let mut outside = Outside {
        found,
        told: UNTOLD,
    };
    let mut fiber = main_fiber::<J>(alloc, code)?;
    let started = goes_on(&mut fiber, code, &mut outside)?;
    if let (Whose::Child, Some(mut child)) = (whose, started) {
        goes_on(&mut child, code, &mut outside)?;
        return Ok((child.into_trace(), outside.told));
    }
    Ok((fiber.into_trace(), outside.told))
}

fn trace_of(
    alloc: Global,
    nodes: &[Node],
    found: Found,
    whose: Whose,
) -> Result<(Vec<Stamped>, Told), Fail> {
    let code = Code::build(alloc, Vec::from_slice(alloc, nodes)?, 1)?;
    traced::<Brand>(alloc, &code, found, whose)
}

#[test]
fn stamps_come_after_those_of_what_was_found(rt: HostRuntime) -> Result<(), Fail> {
    for row in &ROWS {
        let (trace, told) = trace_of(rt.alloc(), row.nodes, row.found, Whose::Main)?;
        assert!(rt;
            trace.as_slice() == row.trace && told == row.told,
            "{}",
            row.what
        );
    }
    Ok(())
}

#[test]
fn a_child_goes_on_from_the_stamp_of_its_start(rt: HostRuntime) -> Result<(), Fail> {
    let (trace, told) = trace_of(rt.alloc(), OFFER_AND_START, NOTHING, Whose::Child)?;
    assert!(rt; trace.as_slice() == [at!(3, SUCCEEDED)].as_slice());
    assert!(rt; told.start == Some(2) && told.finish == Some(3));
    Ok(())
}
