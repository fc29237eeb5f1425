//! The rules of `offer`, `tryoffer`, `take` and `trytake`, one method each. They ask the port and go on by
//! its answer, or wait; what needs memory is had before.
ghost use Rattle.std.specs.Prelude.{◌≡◌, ◌<◌, ◌^◌, IfOk, OnErr};
ghost use Rattle.fx_term.specs.declared.node.Node.TheVariants as node;
ghost use Rattle.fx_fiber.specs.Leaves.{IsTryTake};
ghost use Rattle.fx_fiber.specs.Places.{IsSame, StandsAt};
ghost use Rattle.fx_fiber.specs.MakesCall.{MakesCall};

use crate::clock::{after, raise};
use crate::machine::Machine;
use crate::machine::focus::Focus;
use crate::machine::made::Made;
use crate::port::Port;
use fx_model::Source;
use fx_term::{Arg, Done, Event, Memory, Node, NodeId, Offered};

impl Machine {
    ghost use Rattle.fx_term.specs.declared.node.NodeId.{NodeId};

    /// An `offer` puts its value at the back of the queue and gives 0, once that has room.
    pub fn offer<P: Port>(
        &mut self,
        port: &mut P,
        shared: &mut P::Shared,
        clock: &mut u64,
        queue: u8,
        value: Arg,
    ) -> Result<Made, Memory>
        requires at { (id : NodeId) × StandsAt P.theory.code self.old id (node.Offer queue value) }
        requires countable { (P.theory.facts port.old).puts < 2 ^ 63 }
        ensures ok { IfOk result (λ made. MakesCall P.theory
            clock.old self.old port.old shared.old made clock.new self.new port.new shared.new) }
        ensures same { OnErr result (IsSame P.theory.code self.old self.new) }
        ensures unchanged { OnErr result ((port.new ≡ port.old) × (shared.new ≡ shared.old) × (clock.new ≡ clock.old)) }
    {
        let value = self.registers.number_of(value);
        match port.offer(shared, queue, value, after(*clock))? {
            Offered::Done => {
                self.focus = Focus::Return(Done::Val(0));
                Ok(Made::Shows(Event::Put(queue, value)))
            }
            Offered::Full => Ok(Made::Waits(Source::Room(queue))),
        }
    }

    /// A `tryoffer` puts its value at the back of the queue and gives 1, or gives 0 where that is full.
    pub fn try_offer<P: Port>(
        &mut self,
        port: &mut P,
        shared: &mut P::Shared,
        clock: &mut u64,
        queue: u8,
        value: Arg,
    ) -> Result<Made, Memory>
        requires at { (id : NodeId) × StandsAt P.theory.code self.old id (node.TryOffer queue value) }
        requires countable { (P.theory.facts port.old).puts < 2 ^ 63 }
        ensures ok { IfOk result (λ made. MakesCall P.theory
            clock.old self.old port.old shared.old made clock.new self.new port.new shared.new) }
        ensures same { OnErr result (IsSame P.theory.code self.old self.new) }
        ensures unchanged { OnErr result ((port.new ≡ port.old) × (shared.new ≡ shared.old) × (clock.new ≡ clock.old)) }
    {
        let value = self.registers.number_of(value);
        match port.offer(shared, queue, value, after(*clock))? {
            Offered::Done => {
                self.focus = Focus::Return(Done::Val(1));
                Ok(Made::Shows(Event::Put(queue, value)))
            }
            Offered::Full => {
                self.focus = Focus::Return(Done::Val(0));
                Ok(Made::Shows(Event::Refused(queue)))
            }
        }
    }

    /// A `take` gives the front of the queue, once that has one.
    pub fn take<P: Port>(
        &mut self,
        port: &mut P,
        shared: &mut P::Shared,
        clock: &mut u64,
        queue: u8,
    ) -> Made
        requires at { (id : NodeId) × StandsAt P.theory.code self.old id (node.Take queue) }
        ensures { MakesCall P.theory
            clock.old self.old port.old shared.old result clock.new self.new port.new shared.new }
    {
        match port.take(shared, queue) {
            Some((value, stamp)) => {
                raise(clock, stamp);
                self.focus = Focus::Return(Done::Val(value));
                Made::Shows(Event::Got(queue, value))
            }
            None => Made::Waits(Source::Element(queue)),
        }
    }

    /// A `trytake` goes on with the front of the queue, or with its other part where that is empty.
    pub fn try_take<P: Port>(
        &mut self,
        port: &mut P,
        shared: &mut P::Shared,
        clock: &mut u64,
        id: NodeId,
        node: &Node,
    ) -> Result<Made, Memory>
        requires at { StandsAt P.theory.code self.old id node.now }
        requires try_take { IsTryTake node.now }
        ensures ok { IfOk result (λ made. MakesCall P.theory
            clock.old self.old port.old shared.old made clock.new self.new port.new shared.new) }
        ensures same { OnErr result (IsSame P.theory.code self.old self.new) }
        ensures unchanged { OnErr result ((port.new ≡ port.old) × (shared.new ≡ shared.old) × (clock.new ≡ clock.old)) }
    {
        let Node::TryTake(queue, name, part, other) = *node else {
            unreachable!();
        };
        // The name has its room before the port is asked.
        self.registers.bind(Some(name), 0)?;
        match port.take(shared, queue) {
            Some((value, stamp)) => {
                raise(clock, stamp);
                self.registers.rebind(name, value);
                self.focus = Focus::Eval(part);
                Ok(Made::Shows(Event::Got(queue, value)))
            }
            None => {
                self.focus = Focus::Eval(other);
                Ok(Made::Shows(Event::Empty(queue)))
            }
        }
    }
}
