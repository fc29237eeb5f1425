//! The table: which rule is made, by the place and the innermost context.
ghost use Rattle.std.specs.Prelude.{◌≡◌, ◌^◌, ◌<◌, Some, [], IfOk, OnErr};
ghost use Rattle.fx_term.specs.declared.node.Node.TheVariants as node;
ghost use Rattle.fx_fiber.specs.Leaves.{IsLeafNode, IsLocalLeaf};
ghost use Rattle.fx_fiber.specs.Places.{IsSame, StandsAt, ReturnsOut};
ghost use Rattle.fx_fiber.specs.Places.{IsReturning};
ghost use Rattle.fx_fiber.specs.Makes.{MakesRule};
ghost use Rattle.fx_fiber.specs.Interruption.{Interrupts, IsInterrupted};
ghost use Rattle.fx_fiber.specs.MakesCall.{MakesCall};
ghost use Rattle.fx_fiber.specs.Fiber.{is_fiber_number};
ghost use Rattle.fx_model.specs.Scopes.{IsProgressScopedOver};
ghost use Rattle.fx_fiber.specs.Machine.{progress_of};

use crate::machine::Machine;
use crate::machine::interruption::Interruption;
use crate::machine::made::Made;
use crate::machine::node_row::NodeRow;
use crate::port::Port;
use fx_frames::Frame;
use fx_model::Source;
use fx_term::{Arg, Code, Done, Memory, Node, NodeId};

impl Machine {
    ghost use Rattle.std.specs.Prelude.{List};
    ghost use Rattle.fx_term.specs.declared.node.Node.{Node};

    /// The row of a leaf, or none where the fiber waits. The clock is raised to the stamp of what the port
    /// gave.
    pub fn leaf_rule<P: Port>(
        &mut self,
        port: &mut P,
        shared: &mut P::Shared,
        clock: &mut u64,
        id: NodeId,
        node: &Node,
    ) -> Result<Made, Memory>
        requires at { StandsAt P.theory.code self.old id node.now }
        requires leaf { IsLeafNode (Some node.now) }
        requires countable { self.old.masks.entries < 2 ^ 63 }
        requires puts_countable { (P.theory.facts port.old).puts < 2 ^ 63 }
        requires scoped { IsProgressScopedOver is_fiber_number (progress_of P.theory.code self.old) }
        ensures ok { IfOk result (λ made. MakesCall P.theory
            clock.old self.old port.old shared.old made clock.new self.new port.new shared.new) }
        ensures same { OnErr result (IsSame P.theory.code self.old self.new) }
        ensures unchanged { OnErr result ((port.new ≡ port.old) × (shared.new ≡ shared.old) × (clock.new ≡ clock.old)) }
    {
        match *node {
            Node::Never => Ok(Made::Waits(Source::Nothing)),
            Node::Start(slot, started, then) => Ok(Made::Starts(slot, started, then)),
            Node::Join(..) => self.join(port, shared, clock, id, node),
            Node::Cancel(fiber) => Ok(self.request(port, shared, clock, fiber)),
            Node::First(left, right) => Ok(self.first(port, shared, clock, left, right)),
            Node::Offer(queue, value) => self.offer(port, shared, clock, queue, value),
            Node::TryOffer(queue, value) => self.try_offer(port, shared, clock, queue, value),
            Node::Take(queue) => Ok(self.take(port, shared, clock, queue)),
            Node::TryTake(..) => self.try_take(port, shared, clock, id, node),
            _ => self.local_rule(id, node),
        }
    }

    /// The row of a leaf for which the port is not asked.
    fn local_rule(&mut self, id: NodeId, node: &Node) -> Result<Made, Memory>
        ghost nodes: { List Node }
        requires at { StandsAt nodes self.old id node.now }
        requires leaf { IsLocalLeaf node.now }
        requires countable { self.old.masks.entries < 2 ^ 63 }
        ensures ok { IfOk result (λ made. MakesRule nodes self.old made self.new) }
        ensures err { OnErr result (IsSame nodes self.old self.new) }
    {
        match self.node_row(id, node)? {
            NodeRow::Made => Ok(Made::Silent),
            NodeRow::Entered(_) => unreachable!(),
            NodeRow::Other => match *node {
                Node::Canceled => Ok(self.self_request()),
                Node::Cede => Ok(self.cede()),
                _ => unreachable!(),
            },
        }
    }

    /// The row of a result in its context, and the ends.
    // (laid into each step, of which there is one for each port, as the end is)
    #[inline(always)]
    pub fn result_rule(&mut self, code: &Code, done: Done) -> Result<Made, Memory>
        ghost nodes: { List Node }
        requires code { code.now.nodes ≡ nodes }
        requires given { IsReturning nodes self.old done }
        requires countable { self.old.acquired < 2 ^ 63 }
        ensures ok { IfOk result (λ made. MakesRule nodes self.old made self.new) }
        ensures err { OnErr result (IsSame nodes self.old self.new) }
    {
        // in no context nothing else is looked for
        if self.frames.last().is_none() {
            return Ok(self.end_rule(done));
        }
        if self.silent_result(done)? {
            return Ok(Made::Silent);
        }
        if let Some(event) = self.bracket_result(code, done)? {
            return Ok(Made::Shows(event));
        }
        match (self.frames.last(), done) {
            (Some(&Frame::Acquire(_)), Done::Err(_)) => {
                self.acquire_fails();
                Ok(Made::Silent)
            }
            (Some(&Frame::AcquireCase(_)), Done::Err(_)) => {
                self.acquire_case_fails();
                Ok(Made::Silent)
            }
            _ => unreachable!(),
        }
    }

    /// The rule of a result in no context: the end of the fiber, or of a clean-up.
    // (as `result_rule` is)
    #[inline(always)]
    fn end_rule(&mut self, done: Done) -> Made
        ghost nodes: { List Node }
        requires given { ReturnsOut nodes self.old done }
        ensures { MakesRule nodes self.old result self.new }
    {
        match (&self.cleanups, done) {
            (Some(unwound), _) => match unwound.resource {
                Some(number) => self.release_ends(number),
                None => self.finalizer_ends(),
            },
            (None, Done::Val(n)) => self.succeeds(n),
            (None, Done::Err(e)) => self.errs(e),
        }
    }

    /// Cancellation, or a request that is seen, in place of a row.
    pub fn interrupted(&mut self, interruption: Interruption) -> Result<Made, Memory>
        ghost nodes: { List Node }
        requires { IsInterrupted nodes self.old interruption }
        ensures ok { IfOk result (λ made. Interrupts nodes self.old interruption made self.new) }
        ensures err { OnErr result (IsSame nodes self.old self.new) }
        ensures cancellation { OnErr result (interruption ≡ Interruption.Cancellation) }
    {
        match interruption {
            Interruption::Cancellation => self.cancelled(),
            Interruption::Request => Ok(self.seen()),
        }
    }
}
