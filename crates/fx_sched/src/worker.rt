//! The loop of a worker.
ghost use Rattle.std.specs.Prelude.{◌≡◌, ◌≤◌, ℕ, true};

use crate::deques::{Hand, Shown, Work};
use crate::gate::Gate;
use crate::lot::Lot;
use crate::turns::{gated_turn, leave, solo};
use futures::task::{Context, Poll};
use fx_fiber::{Fiber, Port, Turned};
use fx_term::Code;
use std::alloc::AllocGlobal;
use std::random::RandomSource;
use std::sync::Wait;

/// How a worker ended.
#[derive(Drop)]
pub enum WorkerEnd<P: Port> {
    /// There was nothing more to do.
    Done,
    /// Memory was refused. These are the fibers in hand: the one whose turn it was, and one that was
    /// started or woken.
    Memory(Option<Fiber<P>>, Option<Fiber<P>>),
}

/// Runs fibers until there is nothing more to do, each in turns that the gate is asked before. No lock is
/// held in a turn, nor while the gate is asked. A port is not `Drop` here, so that no fiber is: each that
/// comes to the worker, from a deque, from the lot or as a child, goes into its deque, into the lot or into
/// what it ends with.
pub fn work<R: Wait + RandomSource + AllocGlobal, P: Port, G: Gate>(
    rt: &R,
    worker: u32,
    hand: &mut Hand<P>,
    all: &Work<P>,
    lot: &Lot<P>,
    code: &Code,
    shared: &mut P::Shared,
    gate: &G,
) -> WorkerEnd<P>
    requires code { code.now.nodes ≡ P.theory.code }
    requires total { P.theory.total ≤ lot.now }
    requires gate { (id : ℕ) → G.may gate.now id ≡ true → P.theory.may id ≡ true }
{
    let Ok(solo) = solo(rt) else {
        return WorkerEnd::Memory(None, None);
    };
    let mut cx = solo.begin();
    all.resumes();
    let end = serve(rt, &mut cx, worker, hand, all, lot, code, shared, gate);
    leave(cx);
    end
}

/// Takes a fiber, lets it have its turns, and lays it down, again and again. The one that comes next does not go
/// through the deque where that is empty.
fn serve<R: Wait, P: Port, G: Gate>(
    rt: &R,
    cx: &mut Context<'_>,
    worker: u32,
    hand: &mut Hand<P>,
    all: &Work<P>,
    lot: &Lot<P>,
    code: &Code,
    shared: &mut P::Shared,
    gate: &G,
) -> WorkerEnd<P>
    requires code { code.now.nodes ≡ P.theory.code }
    requires total { P.theory.total ≤ lot.now }
    requires gate { (id : ℕ) → G.may gate.now id ≡ true → P.theory.may id ≡ true }
{
    let mut next = None;
    for _ in rt.forever() {
        let Some(mut fiber) = taken(rt, hand, all, next) else {
            return WorkerEnd::Done;
        };
        let answer = match turns(
            rt, cx, gate, worker, hand, all, lot, &mut fiber, code, shared,
        ) {
            Ok(answer) => answer,
            Err(woken) => {
                all.goes_idle();
                return WorkerEnd::Memory(Some(fiber), Some(woken));
            }
        };
        next = match placed(rt, hand, all, lot, fiber, answer) {
            Ok(None) if hand.is_empty() => woken(rt, gate, lot, shared),
            Ok(next) => next,
            Err(end) => {
                all.goes_idle();
                return end;
            }
        };
        if let Err(fiber) = wakes(rt, gate, hand, lot, shared) {
            all.goes_idle();
            return WorkerEnd::Memory(next, Some(fiber));
        }
        hand.share(all);
    }
    unreachable!()
}

/// The fiber that comes next, or one out of a deque. It waits until there is one, or no worker may have one.
#[inline(always)]
fn taken<R: Wait, P: Port>(
    rt: &R,
    hand: &mut Hand<P>,
    all: &Work<P>,
    next: Option<Fiber<P>>,
) -> Option<Fiber<P>> {
    match next {
        Some(fiber) => Some(fiber),
        None => hand.wait_next(rt, all),
    }
}

/// Lets the fiber have its turn, and the next ones for as long as it yields and its worker has no other:
/// it would come next. Answers what the last turn came to; or want of memory, with the fiber that was woken
/// after a turn and cannot be pushed.
// (laid into the loop of a worker, so that no fiber is handed on by its address)
#[inline(always)]
fn turns<R: Wait, P: Port, G: Gate>(
    rt: &R,
    cx: &mut Context<'_>,
    gate: &G,
    worker: u32,
    hand: &mut Hand<P>,
    all: &Work<P>,
    lot: &Lot<P>,
    fiber: &mut Fiber<P>,
    code: &Code,
    shared: &mut P::Shared,
) -> Result<Poll<Turned<P>>, Fiber<P>>
    requires code { code.now.nodes ≡ P.theory.code }
    requires total { P.theory.total ≤ lot.now }
    requires gate { (id : ℕ) → G.may gate.now id ≡ true → P.theory.may id ≡ true }
{
    for _ in rt.forever() {
        let before = fiber.trace().len();
        match gated_turn(cx, gate, worker, fiber, code, shared) {
            Poll::Pending if fiber.source().is_none() => {
                hand.goes_on(all, shown_since(before, fiber));
                if !hand.is_empty() {
                    return Ok(Poll::Pending);
                }
            }
            answer => return Ok(answer),
        }
        wakes(rt, gate, hand, lot, shared)?;
        hand.share(all);
    }
    unreachable!()
}

/// What a fiber has shown since it had so many events.
fn shown_since<P: Port>(events: usize, fiber: &Fiber<P>) -> Shown {
    if fiber.trace().len() > events {
        Shown::Events
    } else {
        Shown::Nothing
    }
}

/// Lays a fiber where it belongs after its turn, and a child that it started before it. What the lot gives back is
/// able to go on. Answers who comes next, where the deque was empty and that is known.
fn placed<R: Wait, P: Port>(
    rt: &R,
    hand: &mut Hand<P>,
    all: &Work<P>,
    lot: &Lot<P>,
    fiber: Fiber<P>,
    answer: Poll<Turned<P>>,
) -> Result<Option<Fiber<P>>, WorkerEnd<P>>
    requires { P.theory.total ≤ lot.now }
{
    let fiber = match answer {
        Poll::Ready(Turned::Memory) => return Err(WorkerEnd::Memory(Some(fiber), None)),
        Poll::Ready(Turned::Ended) => {
            hand.pauses(all);
            let Some(fiber) = lot.settle(rt, fiber) else {
                return Ok(None);
            };
            fiber
        }
        Poll::Ready(Turned::Child(child)) => return started(hand, fiber, child),
        Poll::Pending => {
            if fiber.source().is_none() {
                fiber
            } else {
                hand.pauses(all);
                let Some(fiber) = lot.park(rt, fiber) else {
                    return Ok(None);
                };
                fiber
            }
        }
    };
    if hand.is_empty() {
        return Ok(Some(fiber));
    }
    match hand.push(fiber) {
        Ok(()) => Ok(None),
        Err(fiber) => Err(WorkerEnd::Memory(Some(fiber), None)),
    }
}

/// Lays a child down that was started, and behind it the fiber that started it.
fn started<P: Port>(
    hand: &mut Hand<P>,
    fiber: Fiber<P>,
    child: Fiber<P>,
) -> Result<Option<Fiber<P>>, WorkerEnd<P>> {
    let next = if hand.is_empty() {
        Some(child)
    } else {
        if let Err(child) = hand.push(child) {
            return Err(WorkerEnd::Memory(Some(fiber), Some(child)));
        }
        None
    };
    match hand.push(fiber) {
        Ok(()) => Ok(next),
        Err(fiber) => Err(WorkerEnd::Memory(Some(fiber), next)),
    }
}

/// Takes the fibers out that are noted to be woken, and pushes those that the gate lets wake. One that
/// cannot be pushed for want of memory comes back.
// (as `turns` is)
#[inline(always)]
fn wakes<R: Wait, P: Port, G: Gate>(
    rt: &R,
    gate: &G,
    hand: &mut Hand<P>,
    lot: &Lot<P>,
    shared: &mut P::Shared,
) -> Result<(), Fiber<P>>
    requires { P.theory.total ≤ lot.now }
{
    for _ in rt.forever() {
        let Some(fiber) = woken(rt, gate, lot, shared) else {
            return Ok(());
        };
        hand.push(fiber)?;
    }
    unreachable!()
}

/// Takes the next fiber out that is noted to be woken and that the gate lets wake.
#[inline(always)]
fn woken<R: Wait, P: Port, G: Gate>(
    rt: &R,
    gate: &G,
    lot: &Lot<P>,
    shared: &mut P::Shared,
) -> Option<Fiber<P>>
    requires { P.theory.total ≤ lot.now }
{
    for _ in rt.forever() {
        let id = P::woken(shared)?;
        if gate.lets_wake(id)
            && let Some(fiber) = lot.wake(rt, id)
        {
            return Some(fiber);
        }
    }
    unreachable!()
}
