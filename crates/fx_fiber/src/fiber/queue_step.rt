//! The step of a fiber that stands at an `offer` or a `take`. Most steps that ask the port are these, so each is made
//! and told in one go, with nothing in between.
ghost use Rattle.std.specs.Prelude.{◌≡◌, ◌<◌, ◌^◌, ℕ};
ghost use Rattle.std.specs.Vec.{vec_len, vec_capacity};
ghost use Rattle.fx_term.specs.declared.node.Node.TheVariants as node;
ghost use Rattle.fx_term.specs.declared.node.NodeId.{NodeId};
ghost use Rattle.fx_fiber.specs.MakesCall.{MakesCall};
ghost use Rattle.fx_fiber.specs.Places.{StandsAt};
ghost use Rattle.fx_fiber.specs.QueueSteps.{TellsQueue};
ghost use Rattle.fx_model.specs.declared.source.Source.TheVariants.{Room, Element};
ghost use Rattle.fx_fiber.specs.declared.machine.made.Made.{Made};

use crate::clock::{after, raise};
use crate::fiber::body::Body;
use crate::machine::focus::Focus;
use crate::port::Port;
use fx_term::{Arg, Done, Event, Memory, Offered};

/// What a step at a queue came to.
#[derive(Clone, Copy)]
pub(crate) enum AtQueue {
    /// It put its element, or got one.
    Went,
    /// It made no rule, since the fiber waits at that queue.
    Waits,
    /// It made none, since memory was refused.
    Memory,
}

/// The rule of an `offer`, as [`Machine::offer`](crate::machine::Machine::offer) makes it, and told.
#[inline(always)]
pub(crate) fn offer_step<P: Port>(
    port: &mut P,
    body: &mut Body,
    shared: &mut P::Shared,
    queue: u8,
    value: Arg,
) -> AtQueue
    requires at { (id : NodeId) × StandsAt P.theory.code body.old.machine id (node.Offer queue value) }
    requires countable { (P.theory.facts port.old).puts < 2 ^ 63 }
    requires room { vec_len body.old.trace < vec_capacity body.old.trace }
    ensures tells { TellsQueue P.theory (Room queue) (λ (m : Made) (k : ℕ). MakesCall P.theory
        body.old.clock body.old.machine port.old shared.old m k body.new.machine port.new shared.new)
        ((body.new ≡ body.old) × (port.new ≡ port.old) × (shared.new ≡ shared.old)) result body.old body.new }
    ensures id { body.new.id ≡ body.old.id }
    ensures source { body.new.source ≡ body.old.source }
{
    let value = body.machine.registers.number_of(value);
    match port.offer(shared, queue, value, after(body.clock)) {
        Ok(Offered::Done) => {
            body.machine.focus = Focus::Return(Done::Val(0));
            body.show(Event::Put(queue, value));
            AtQueue::Went
        }
        Ok(Offered::Full) => AtQueue::Waits,
        Err(Memory) => AtQueue::Memory,
    }
}

/// The rule of a `take`, as [`Machine::take`](crate::machine::Machine::take) makes it, and told.
#[inline(always)]
pub(crate) fn take_step<P: Port>(
    port: &mut P,
    body: &mut Body,
    shared: &mut P::Shared,
    queue: u8,
) -> AtQueue
    requires at { (id : NodeId) × StandsAt P.theory.code body.old.machine id (node.Take queue) }
    requires room { vec_len body.old.trace < vec_capacity body.old.trace }
    ensures tells { TellsQueue P.theory (Element queue) (λ (m : Made) (k : ℕ). MakesCall P.theory
        body.old.clock body.old.machine port.old shared.old m k body.new.machine port.new shared.new)
        ⊥ result body.old body.new }
    ensures id { body.new.id ≡ body.old.id }
    ensures source { body.new.source ≡ body.old.source }
{
    match port.take(shared, queue) {
        Some((value, stamp)) => {
            raise(&mut body.clock, stamp);
            body.machine.focus = Focus::Return(Done::Val(value));
            body.show(Event::Got(queue, value));
            AtQueue::Went
        }
        None => AtQueue::Waits,
    }
}
