//! The rules of `join`, `cancel` and `first`, one method each. They ask the port first and go on by its
//! answer, or wait; what needs memory is had before.
ghost use Rattle.std.specs.Prelude.{◌≡◌, ◌<◌, ◌^◌, IfOk, OnErr, slice_index, length};
ghost use Rattle.fx_term.specs.declared.node.Arg.TheVariants as arg;
ghost use Rattle.fx_term.specs.declared.node.Node.TheVariants as node;
ghost use Rattle.fx_term.specs.Fill.{fill_arg};
ghost use Rattle.fx_fiber.specs.Sound.{IsSoundMachine};
ghost use Rattle.fx_fiber.specs.Fiber.{is_fiber_number};
ghost use Rattle.fx_model.specs.Scopes.{IsProgressScopedOver};
ghost use Rattle.fx_fiber.specs.Machine.{progress_of};
ghost use Rattle.fx_fiber.specs.Leaves.{IsJoin};
ghost use Rattle.fx_fiber.specs.Places.{IsSame, StandsAt, joined_machine};
ghost use Rattle.fx_fiber.specs.MakesCall.{MakesCall};

use crate::clock::{after, raise};
use crate::machine::Machine;
use crate::machine::focus::Focus;
use crate::machine::made::Made;
use crate::port::Port;
use fx_model::Source;
use fx_term::{Arg, Done, Event, Memory, Node, NodeId, Outcome};

impl Machine {
    ghost use Rattle.std.specs.Prelude.{ℕ, List};
    ghost use Rattle.fx_term.specs.declared.node.Node.{Node};
    ghost use Rattle.fx_term.specs.declared.node.NodeId.{NodeId};

    /// The number of the fiber that a name stands for.
    pub fn fiber_of(&self, slot: u32) -> u32
        requires bound { slot < length self.now.registers }
        requires fits { slice_index self.now.registers slot < 2 ^ 32 }
        ensures { fill_arg (length self.now.registers) self.now.registers (arg.Slot slot)
            ≡ arg.Number result }
    {
        self.registers.number_of(Arg::Slot(slot)) as u32
    }

    /// A `join` goes on by how the fiber ended, once it has.
    pub fn join<P: Port>(
        &mut self,
        port: &mut P,
        shared: &mut P::Shared,
        clock: &mut u64,
        id: NodeId,
        node: &Node,
    ) -> Result<Made, Memory>
        requires at { StandsAt P.theory.code self.old id node.now }
        requires join { IsJoin node.now }
        requires scoped { IsProgressScopedOver is_fiber_number (progress_of P.theory.code self.old) }
        ensures ok { IfOk result (λ made. MakesCall P.theory
            clock.old self.old port.old shared.old made clock.new self.new port.new shared.new) }
        ensures same { OnErr result (IsSame P.theory.code self.old self.new) }
        ensures unchanged { OnErr result ((port.new ≡ port.old) × (shared.new ≡ shared.old) × (clock.new ≡ clock.old)) }
    {
        let Node::Join(slot, name, success, _, failure, cancellation) = *node else {
            unreachable!();
        };
        let fiber = self.fiber_of(slot);
        // Both parts have the same slot for their name. It is had before the port is asked.
        self.registers.bind(Some(name), 0)?;
        match port.peek(shared, fiber) {
            Some((outcome, stamp)) => {
                raise(clock, stamp);
                self.goes_on_after(outcome, name, success, failure, cancellation);
                Ok(Made::Learns(fiber, outcome, Event::Joined(fiber, outcome)))
            }
            None => Ok(Made::Waits(Source::Outcome(fiber))),
        }
    }

    /// Goes on with the part for this outcome, whose number is put for the name of the part.
    fn goes_on_after(
        &mut self,
        outcome: Outcome,
        name: u32,
        success: NodeId,
        failure: NodeId,
        cancellation: NodeId,
    )
        requires { name < length self.old.registers }
        ensures { self.new ≡ joined_machine outcome name success failure cancellation self.old }
    {
        match outcome {
            Outcome::Succeeded(value) => {
                self.registers.rebind(name, value);
                self.focus = Focus::Eval(success);
            }
            Outcome::Errored(error) => {
                self.registers.rebind(name, error);
                self.focus = Focus::Eval(failure);
            }
            Outcome::Canceled => self.focus = Focus::Eval(cancellation),
        }
    }

    /// A `cancel` requests the cancellation of the fiber, and then awaits its end.
    pub fn request<P: Port>(
        &mut self,
        port: &mut P,
        shared: &mut P::Shared,
        clock: &mut u64,
        slot: u32,
    ) -> Made
        requires at { (id : NodeId) × StandsAt P.theory.code self.old id (node.Cancel slot) }
        requires scoped { IsProgressScopedOver is_fiber_number (progress_of P.theory.code self.old) }
        ensures { MakesCall P.theory
            clock.old self.old port.old shared.old result clock.new self.new port.new shared.new }
    {
        let fiber = self.fiber_of(slot);
        port.request(shared, fiber, after(*clock));
        self.focus = Focus::Await(fiber);
        Made::Shows(Event::Request(fiber))
    }

    /// A fiber that awaits the end of one that it canceled goes on with 0, once that has ended.
    pub fn awaits<P: Port>(
        &mut self,
        port: &mut P,
        shared: &mut P::Shared,
        clock: &mut u64,
        fiber: u32,
    ) -> Made
        requires sound { IsSoundMachine P.theory.code self.old }
        requires focus { self.old.focus ≡ Focus.Await fiber }
        ensures { MakesCall P.theory
            clock.old self.old port.old shared.old result clock.new self.new port.new shared.new }
    {
        match port.peek(shared, fiber) {
            Some((outcome, stamp)) => {
                raise(clock, stamp);
                self.focus = Focus::Return(Done::Val(0));
                Made::Learns(fiber, outcome, Event::Awaited(fiber))
            }
            None => Made::Waits(Source::Outcome(fiber)),
        }
    }

    /// A `first` gives 0 once the left fiber has ended, or else 1 once the right one has.
    pub fn first<P: Port>(
        &mut self,
        port: &mut P,
        shared: &mut P::Shared,
        clock: &mut u64,
        left: u32,
        right: u32,
    ) -> Made
        requires at { (id : NodeId) × StandsAt P.theory.code self.old id (node.First left right) }
        requires scoped { IsProgressScopedOver is_fiber_number (progress_of P.theory.code self.old) }
        ensures { MakesCall P.theory
            clock.old self.old port.old shared.old result clock.new self.new port.new shared.new }
    {
        let left = self.fiber_of(left);
        let right = self.fiber_of(right);
        match port.peek(shared, left) {
            Some((outcome, stamp)) => {
                raise(clock, stamp);
                self.focus = Focus::Return(Done::Val(0));
                Made::Learns(left, outcome, Event::First(0))
            }
            None => match port.peek(shared, right) {
                Some((outcome, stamp)) => {
                    raise(clock, stamp);
                    self.focus = Focus::Return(Done::Val(1));
                    Made::Learns(right, outcome, Event::First(1))
                }
                None => Made::Waits(Source::Either(left, right)),
            },
        }
    }
}
