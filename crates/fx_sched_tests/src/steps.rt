//! Steps of a fiber by hand, and what fibers came to.
ghost use Rattle.std.specs.Prelude.{◌≡◌};

use fx_fiber::{Fiber, Port, Stepped};
use fx_sched::Resting;
use fx_term::{Code, Event, Memory, Stamped};
use std::alloc::Global;

/// A step of the fiber, if it has not ended, and the fiber that it starts. Where it waits it is registered.
fn step<P: Port + Drop>(
    fiber: &mut Fiber<P>,
    code: &Code,
    shared: &mut P::Shared,
) -> Result<Option<Fiber<P>>, Memory>
    requires code { code.now.nodes ≡ P.theory.code }
{
    if fiber.has_ended() {
        return Ok(None);
    }
    match fiber.step(code, shared)? {
        Stepped::Child(child) => Ok(Some(child)),
        Stepped::Waits(source) => {
            fiber.wait_on(shared, source);
            Ok(None)
        }
        _ => Ok(None),
    }
}

/// The fiber once it waits or has ended, if that is soon.
pub fn unable_to_step<P: Port + Drop>(
    mut fiber: Fiber<P>,
    code: &Code,
    shared: &mut P::Shared,
) -> Result<Fiber<P>, Memory>
    requires code { code.now.nodes ≡ P.theory.code }
{
    for _ in 0..9u32 {
        let _child = step(&mut fiber, code, shared)?;
    }
    Ok(fiber)
}

/// The fiber that a step of this one starts, once it waits or has ended.
pub fn start<P: Port + Drop>(
    fiber: &mut Fiber<P>,
    code: &Code,
    shared: &mut P::Shared,
) -> Result<Option<Fiber<P>>, Memory>
    requires code { code.now.nodes ≡ P.theory.code }
{
    match step(fiber, code, shared)? {
        Some(child) => Ok(Some(unable_to_step(child, code, shared)?)),
        None => Ok(None),
    }
}

/// The events of a trace.
pub fn events_of(alloc: Global, trace: &[Stamped]) -> Result<Vec<Event>, Memory> {
    let mut events = Vec::new(alloc);
    for stamped in trace {
        events.push(stamped.event)?;
    }
    Ok(events)
}

/// The last event of each fiber, where it has one.
pub fn last_events<P: Port + Drop>(
    alloc: Global,
    fibers: &[Resting<P>],
) -> Result<Vec<Event>, Memory> {
    let mut events = Vec::new(alloc);
    for fiber in fibers {
        if let Some(last) = fiber.trace().last() {
            events.push(last.event)?;
        }
    }
    Ok(events)
}
