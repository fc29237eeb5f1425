//! How a fiber waits, and leaves.
ghost use Rattle.std.specs.Prelude.{◌≡◌, ◌<◌, ℕ, Some, slice_get};
ghost use Rattle.fx_queue.specs.Queues.{QueueId};
ghost use Rattle.fx_port.specs.Marks.{KeepsMarks};

use crate::notes::Notes;
use crate::run_brand::RunBrand;
use crate::sources::Sources;
use fx_fiber::Source;
use fx_queue::{FiberQueue, Side};
use std::sync::Wait;

/// Lists the fiber where what it waits for is told.
#[inline(always)]
pub(crate) fn wait<R: Wait>(
    rt: &R,
    queues: &[FiberQueue],
    sources: &Sources,
    fiber: u32,
    source: Source,
)
    requires { (q : ℕ) (i : QueueId) → slice_get queues.now q ≡ Some i → fiber < i.fibers }
{
    match source {
        Source::Room(queue) => {
            if let Some(queue) = queues.get(queue as usize) {
                queue.wait(rt, fiber, Side::Room);
            }
        }
        Source::Element(queue) => {
            if let Some(queue) = queues.get(queue as usize) {
                queue.wait(rt, fiber, Side::Element);
            }
        }
        Source::Nothing => {}
        Source::Outcome(_) | Source::Either(_, _) => sources.add(rt, fiber, source),
    }
}

/// Takes a fiber off where it waited, if it did, once it goes on, with `met` where that is of a queue.
/// Where it had been taken off already, by a put or get that it does not use, the next waiter is woken.
/// Mostly it did not wait, and then nothing is written and no call is made.
#[inline(always)]
pub(crate) fn leave<R: Wait, N: RunBrand>(
    rt: &R,
    queues: &[FiberQueue],
    sources: &Sources,
    fiber: u32,
    waited: &mut Option<Source>,
    met: Option<Source>,
    notes: &mut Notes<N>,
)
    requires { (q : ℕ) (i : QueueId) → slice_get queues.now q ≡ Some i → fiber < i.fibers }
    ensures { KeepsMarks notes.old notes.new }
{
    if let Some(source) = *waited {
        *waited = None;
        leave_source(rt, queues, sources, fiber, source, met, notes);
    }
}

/// The same of a fiber that put an element into a queue, or took one. What it met is not made where it did not wait.
#[inline(always)]
pub(crate) fn leave_at<R: Wait, N: RunBrand>(
    rt: &R,
    queues: &[FiberQueue],
    sources: &Sources,
    fiber: u32,
    waited: &mut Option<Source>,
    queue: u8,
    side: Side,
    notes: &mut Notes<N>,
)
    requires { (q : ℕ) (i : QueueId) → slice_get queues.now q ≡ Some i → fiber < i.fibers }
    ensures { KeepsMarks notes.old notes.new }
{
    if let Some(source) = *waited {
        *waited = None;
        let met = match side {
            Side::Room => Source::Room(queue),
            Side::Element => Source::Element(queue),
        };
        leave_source(rt, queues, sources, fiber, source, Some(met), notes);
    }
}

/// The same of a fiber that waited for this.
fn leave_source<R: Wait, N: RunBrand>(
    rt: &R,
    queues: &[FiberQueue],
    sources: &Sources,
    fiber: u32,
    waited: Source,
    met: Option<Source>,
    notes: &mut Notes<N>,
)
    requires { (q : ℕ) (i : QueueId) → slice_get queues.now q ≡ Some i → fiber < i.fibers }
    ensures { KeepsMarks notes.old notes.new }
{
    let (queue, side) = match waited {
        Source::Room(queue) => (queue, Side::Room),
        Source::Element(queue) => (queue, Side::Element),
        Source::Outcome(_) | Source::Either(_, _) => {
            sources.remove(rt, fiber);
            return;
        }
        Source::Nothing => return,
    };
    if let Some(queue) = queues.get(queue as usize) {
        let listed = queue.unwait(rt, fiber, side);
        if !listed && met != Some(waited) {
            wake_next(rt, queue, side, notes);
        }
    }
}

/// Whether a fiber is listed at that side of the queue of that number. Mostly none is, and a call that can wait for
/// a lock costs more than this look, though it takes none.
#[inline(always)]
pub(crate) fn is_waited_at(queues: &[FiberQueue], queue: u8, side: Side) -> bool {
    match queues.get(queue as usize) {
        Some(queue) => queue.has_waiter(side),
        None => false,
    }
}

/// Wakes the fiber that was listed longest at that side of the queue of that number, once the put or get that
/// it is woken by is made.
#[inline(never)]
pub(crate) fn wake_at<R: Wait, N: RunBrand>(
    rt: &R,
    queues: &[FiberQueue],
    queue: u8,
    side: Side,
    notes: &mut Notes<N>,
)
    ensures { KeepsMarks notes.old notes.new }
{
    if let Some(queue) = queues.get(queue as usize) {
        wake_next(rt, queue, side, notes);
    }
}

fn wake_next<R: Wait, N: RunBrand>(rt: &R, queue: &FiberQueue, side: Side, notes: &mut Notes<N>)
    ensures { KeepsMarks notes.old notes.new }
{
    if let Some(fiber) = queue.next_waiter(rt, side) {
        notes.wake(fiber);
    }
}
