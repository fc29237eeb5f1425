//! Fibers that go on through queues in one go.
ghost use Rattle.std.specs.Prelude.{◌≡◌};

use super::{Looks, TestPort, counted, main_fiber};
use fx_fiber::{Fiber, Flow};
use fx_term::{Arg, Code, CodeBrand, Event, Memory, Node, NodeId, Stamped};
use std::alloc::Global;
use std::marker::Brand;
use std::test::Fail;

/// What a flow came to, if there was one.
#[derive(Clone, Copy, PartialEq, Eq)]
enum Flowed {
    Stops(u32),
    Waits(u32),
    /// The fiber did not stand at a queue.
    Elsewhere,
}

/// Lets the main fiber of a code make a burst, and then a flow of at most so many steps: what that came to, and the
/// trace.
fn flow<J: CodeBrand>(
    alloc: Global,
    code: &Code,
    request: Option<u32>,
    most: u32,
) -> Result<(Flowed, Vec<Stamped>), Fail>
    requires { code.now.nodes ≡ J.nodes }
{
    let mut looks = Looks::new(request);
    let mut fiber: Fiber<TestPort<J>> = main_fiber::<J>(alloc, code)?;
    fiber.burst(code, &mut looks, 100)?;
    if most == 0 || !fiber.stands_at_queue(code) {
        return Ok((Flowed::Elsewhere, fiber.into_trace()));
    }
    let flowed = match fiber.flow(code, &mut looks, most) {
        Flow::Stops(made) => Flowed::Stops(made),
        Flow::Waits(made) => Flowed::Waits(made),
        Flow::Memory => return Err(Memory.into()),
    };
    Ok((flowed, fiber.into_trace()))
}

/// The same of the code of these nodes.
fn flow_of(
    alloc: Global,
    nodes: &[Node],
    request: Option<u32>,
    most: u32,
) -> Result<(Flowed, Vec<Stamped>), Fail> {
    let code = Code::build(alloc, Vec::from_slice(alloc, nodes)?, 2)?;
    flow::<Brand>(alloc, &code, request, most)
}

/// A flow: what its row is called, the code of its fiber, the look from which on that is requested, the most steps,
/// what it comes to, and the fiber's events, whose stamps count up from 1.
type Row<'a> = (&'a str, &'a [Node], Option<u32>, u32, Flowed, &'a [Event]);

const OFFER: Node = Node::Offer(0, Arg::Number(5));

const TAKE: Node = Node::Take(0);

static FLOWS: [Row; 7] = [
    (
        "seq (offer q 5) (take q): the put, the rule between, and the get",
        &[OFFER, TAKE, seq!(0, 1)],
        None,
        100,
        Flowed::Stops(3),
        &[Event::Put(0, 5), Event::Got(0, 5)],
    ),
    (
        "the same in one step at most",
        &[OFFER, TAKE, seq!(0, 1)],
        None,
        1,
        Flowed::Stops(1),
        &[Event::Put(0, 5)],
    ),
    (
        "the same in two, of which the second is the rule between",
        &[OFFER, TAKE, seq!(0, 1)],
        None,
        2,
        Flowed::Stops(2),
        &[Event::Put(0, 5)],
    ),
    (
        "the same, requested from the look after the put on: the request is seen, and nothing is got",
        &[OFFER, TAKE, seq!(0, 1)],
        Some(3),
        100,
        Flowed::Stops(2),
        &[Event::Put(0, 5), Event::Seen],
    ),
    (
        "seq (offer q 5) (offer q 5), whose queue is full then",
        &[OFFER, OFFER, seq!(0, 1)],
        None,
        100,
        Flowed::Waits(2),
        &[Event::Put(0, 5)],
    ),
    (
        "take q, which is empty",
        &[TAKE],
        None,
        100,
        Flowed::Waits(0),
        &[],
    ),
    (
        "pure 5, which is no step at a queue",
        &[pure!(5)],
        None,
        100,
        Flowed::Elsewhere,
        &[],
    ),
];

#[test]
fn a_flow_goes_on_through_queues(rt: HostRuntime) -> Result<(), Fail> {
    for &(row, nodes, request, most, flowed, events) in &FLOWS {
        let (came, trace) = flow_of(rt.alloc(), nodes, request, most)?;
        let expected = counted(rt.alloc(), events)?;
        assert!(rt; came == flowed && trace == expected, "{row}");
    }
    Ok(())
}
