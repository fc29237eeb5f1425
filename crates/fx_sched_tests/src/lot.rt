//! A fiber in its bay.
ghost use Rattle.std.specs.Prelude.{◌≡◌, ◌≤◌};

use crate::play::{Plan, play};
use crate::steps::{last_events, start, unable_to_step};
use fx_fiber::{Fiber, Port};
use fx_sched::{Free, Lot};
use fx_term::{Arg, Code, Event, Memory, Node, NodeId, Outcome};
use std::alloc::Global;
use std::sync::Wait;
use std::test::Fail;

/// `start h (pure 1) (pure 2)`.
const STARTS: &[Node] = &[
    Node::Pure(Arg::Number(1)),
    Node::Pure(Arg::Number(2)),
    Node::Start(0, NodeId(0), NodeId(1)),
];

/// How main and the other one end.
static ENDS: [Event; 2] = [
    Event::Ended(Outcome::Succeeded(2)),
    Event::Ended(Outcome::Succeeded(1)),
];

/// The fiber, where a wake that was left gives it back, once, and a wake after that finds it parked.
fn woken_twice<P: Port + Drop, R: Wait>(rt: &R, lot: &Lot<P>, fiber: Fiber<P>) -> Option<Fiber<P>>
    requires total { P.theory.total ≤ lot.now }
{
    let id = fiber.id();
    if lot.wake(rt, id).is_some() {
        return None;
    }
    let fiber = lot.park(rt, fiber)?;
    if lot.park(rt, fiber).is_some() {
        return None;
    }
    lot.wake(rt, id)
}

/// Lays down the fiber that main starts, and main after it was woken twice, once each has ended: whether the bays
/// were free.
fn lay_down<P: Port + Drop, R: Wait>(
    rt: &R,
    lot: &Lot<P>,
    mut main: Fiber<P>,
    code: &Code,
    shared: &mut P::Shared,
) -> Result<bool, Memory>
    requires code { code.now.nodes ≡ P.theory.code }
    requires total { P.theory.total ≤ lot.now }
{
    let mut are_free = true;
    if let Some(child) = start(&mut main, code, shared)? {
        are_free = lot.settle(rt, child).is_none();
    }
    if let Some(main) = woken_twice(rt, lot, main) {
        let main = unable_to_step(main, code, shared)?;
        are_free = are_free && lot.settle(rt, main).is_none();
    }
    Ok(are_free)
}

/// The last event of each of the fibers of a main fiber, once they are laid down in a new lot.
pub fn ends_in_lot<P: Port + Drop, R: Wait>(
    rt: &R,
    alloc: Global,
    total: u32,
    main: Fiber<P>,
    code: &Code,
    shared: &mut P::Shared,
) -> Result<Vec<Event>, Memory>
    requires code { code.now.nodes ≡ P.theory.code }
    requires total { P.theory.total ≤ total }
{
    let lot = Lot::new(alloc, total)?;
    if !lay_down(rt, &lot, main, code, shared)? {
        return Ok(Vec::new(alloc));
    }
    let fibers = lot.empty(alloc)?;
    last_events(alloc, &fibers)
}

#[test]
fn a_wake_that_was_left_gives_a_fiber_back_once(rt: HostRuntime) -> Result<(), Fail> {
    let seen = play(&rt, STARTS, 1, Plan::Lot, &Free)?;
    assert!(rt; seen.events.as_slice() == ENDS.as_slice());
    Ok(())
}
