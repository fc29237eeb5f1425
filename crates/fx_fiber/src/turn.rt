//! A turn of a fiber, as a future.
ghost use Rattle.std.specs.Prelude.{◌≡◌, ◌<◌, ⊤};
ghost use Rattle.futures.specs.Poll.{IfReady, OnPending};
ghost use Rattle.futures.specs.Task.{Covers, Keeps};
ghost use Rattle.std.specs.Prelude.{Some, option_and_then};
ghost use Rattle.fx_model.specs.declared.source.Source.{Source};
ghost use Rattle.fx_model.specs.Step.{leaf_at};
ghost use Rattle.fx_model.specs.Waiting.{wait_at};
ghost use Rattle.fx_fiber.specs.Fiber.{progress};
ghost use Rattle.fx_fiber.specs.Flows.{FlowsTo};
ghost use Rattle.fx_fiber.specs.QueueSteps.{StandsAtQueue, is_due};
ghost use Rattle.fx_fiber.specs.Turns.{Turns, Registers, come_to, still};
ghost use Rattle.fx_fiber.specs.declared.turned.Turned.{Turned};

use crate::fiber::Fiber;
use crate::fiber::flow::Flow;
use crate::port::Port;
use crate::stepped::Stepped;
use crate::turned::Turned;
use futures::Future;
use futures::task::{Context, Poll};
use fx_term::{Code, Memory};

/// A turn of a fiber, as a future: one poll makes at most 64 steps, after each one as many in a burst as
/// there can be. A pending poll has asked for the next
/// one, also where the fiber waits: who has it wakes it, by its port. Whether it waits is told by
/// [`Fiber::source`]: what it registered for, or none where it yields.
#[derive(Drop)]
pub struct Turn<'a, P: Port> {
    fiber: &'a mut Fiber<P>,
    code: &'a Code,
    shared: &'a mut P::Shared,
    ghost fits: { code.now.nodes ≡ P.theory.code },
}

impl<'a, P: Port> Turn<'a, P> {
    /// A turn of this fiber, over what its port shares.
    pub fn new(fiber: &'a mut Fiber<P>, code: &'a Code, shared: &'a mut P::Shared) -> Turn<'a, P>
        requires { code.now.nodes ≡ P.theory.code }
        ensures fiber { (result.fiber.ghost_name ≡ fiber.entry.ghost_name)
            × (result.fiber.now ≡ fiber.entry.now) }
        ensures shared { (result.shared.ghost_name ≡ shared.entry.ghost_name)
            × (result.shared.now ≡ shared.entry.now) }
    {
        Turn {
            fiber,
            code,
            shared,
        }
    }
}

impl<'a, P: Port> Future for Turn<'a, P> {
    type Output = Turned<P>;

    // (as `stepped` is)
    #[inline(always)]
    fn poll(&mut self, cx: &mut Context<'_>) -> Poll<Turned<P>>
        ensures value { IfReady result (λ _. ⊤) }
        ensures again { OnPending result ⊤ }
        ensures same { OnPending result ((x : Turned P P.Shared) → ⊤ → ⊤) }
        ensures registered { OnPending result (Covers cx.new (λ _. ⊥)) }
        ensures kept { Keeps cx.old cx.new }
        ensures same_fiber { (self.new.fiber.ghost_name ≡ self.old.fiber.ghost_name)
            × (self.new.shared.ghost_name ≡ self.old.shared.ghost_name) }
        ensures number { (P.theory.facts self.new.fiber.now.port).number ≡ (P.theory.facts self.old.fiber.now.port).number }
        ensures beginning { (P.theory.facts self.new.fiber.now.port).beginning
            ≡ (P.theory.facts self.old.fiber.now.port).beginning }
        ensures turns { Turns P.theory self.old.fiber.now
            self.old.shared.now (come_to result) self.new.fiber.now self.new.shared.now }
    {
        match stepped(self.fiber, self.code, self.shared) {
            Some(turned) => Poll::Ready(turned),
            None => cx.yield_now(),
        }
    }
}

/// Steps the fiber until its turn has come to something, or until it waits, has given way or has gone on
/// for long enough, which is none.
// (laid into the loop of a worker with all between, or else LLVM makes a call of it there)
#[inline(always)]
fn stepped<P: Port>(fiber: &mut Fiber<P>, code: &Code, shared: &mut P::Shared) -> Option<Turned<P>>
    requires { code.now.nodes ≡ P.theory.code }
    ensures number { (P.theory.facts fiber.new.port).number ≡ (P.theory.facts fiber.old.port).number }
    ensures beginning { (P.theory.facts fiber.new.port).beginning ≡ (P.theory.facts fiber.old.port).beginning }
    ensures turns { Turns P.theory fiber.old shared.old result
        fiber.new shared.new }
{
    if fiber.has_ended() {
        return Some(Turned::Ended);
    }
    let mut is_registered = false;
    let mut steps = 0u32;
    let mut flows = fiber.stands_at_queue(code);
    while steps < 64 {
        if flows {
            match flow_apart(fiber, code, shared, 64 - steps) {
                Flow::Memory => return Some(Turned::Memory),
                Flow::Stops(made) => {
                    is_registered = false;
                    steps += made;
                    flows = false;
                }
                Flow::Waits(made) => {
                    if still(is_registered, made) {
                        return None;
                    }
                    register(fiber, code, shared);
                    is_registered = true;
                    steps += made + 1;
                    flows = fiber.stands_at_queue(code);
                }
            }
        } else {
            match fiber.step(code, shared) {
                Err(Memory) => return Some(Turned::Memory),
                Ok(Stepped::Child(child)) => return Some(Turned::Child(child)),
                Ok(Stepped::Ended) => return Some(Turned::Ended),
                Ok(Stepped::Gave) => {
                    fiber.yields();
                    return None;
                }
                Ok(Stepped::Went) => match fiber.burst(code, shared, 63 - steps) {
                    Err(Memory) => return Some(Turned::Memory),
                    Ok(made) => {
                        is_registered = false;
                        steps += made + 1;
                        flows = fiber.stands_at_queue(code);
                    }
                },
                Ok(Stepped::Waits(source)) => {
                    if is_registered {
                        return None;
                    }
                    fiber.wait_on(shared, source);
                    is_registered = true;
                    steps += 1;
                }
            }
        }
    }
    fiber.yields();
    None
}

/// Lets the fiber make steps in one go. It is not laid into the turn, whose bursts would be dearer so.
#[inline(never)]
fn flow_apart<P: Port>(fiber: &mut Fiber<P>, code: &Code, shared: &mut P::Shared, most: u32) -> Flow
    requires code { code.now.nodes ≡ P.theory.code }
    requires some { 0 < most }
    requires stands { StandsAtQueue P.theory.code fiber.old.focus (is_due fiber.old) }
    ensures to { FlowsTo P.theory most fiber.old shared.old result fiber.new shared.new }
    ensures number { (P.theory.facts fiber.new.port).number ≡ (P.theory.facts fiber.old.port).number }
    ensures beginning { (P.theory.facts fiber.new.port).beginning ≡ (P.theory.facts fiber.old.port).beginning }
    ensures source { fiber.new.source ≡ fiber.old.source }
{
    fiber.flow(code, shared, most)
}

/// Whether a fiber that was registered still is, after so many steps that went on.
#[inline(always)]
fn still(is_registered: bool, made: u32) -> bool
    ensures { result ≡ still is_registered made }
{
    is_registered && made == 0
}

/// Registers a fiber that waits with what it waits for, soonest where that is a queue.
#[inline(always)]
fn register<P: Port>(fiber: &mut Fiber<P>, code: &Code, shared: &mut P::Shared)
    requires code { code.now.nodes ≡ P.theory.code }
    requires waits { (wait : Source) × (option_and_then wait_at (leaf_at (progress P.theory.code fiber.old)) ≡ Some wait) }
    ensures registered { (wait : Source) × (option_and_then wait_at (leaf_at (progress P.theory.code fiber.old)) ≡ Some wait)
        × Registers P.theory fiber.old shared.old wait fiber.new shared.new }
    ensures facts { P.theory.facts fiber.new.port ≡ P.theory.facts fiber.old.port }
{
    let Some(wait) = fiber.waits_at_queue(code) else {
        unreachable!();
    };
    fiber.wait_on(shared, wait);
}
