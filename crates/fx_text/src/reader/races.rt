//! Makes what a race is.
ghost use Rattle.std.specs.Prelude.{◌≡◌, ◌+◌, ◌<◌, ◌≤◌, ◌^◌, None, [], ◌∷◌, length, IfOk};
ghost use Rattle.fx_term.specs.declared.node.Arg.TheVariants.{Slot};
ghost use Rattle.fx_term.specs.Term.{Let, Cancel};
ghost use Rattle.fx_term.specs.Meaning.{term_of};
ghost use Rattle.fx_term.specs.Tree.{children};
ghost use Rattle.fx_text.specs.Limits.{most_nodes};
ghost use Rattle.fx_text.specs.Race.{race_slots, cancel_both, outcome_of, decided, waited, deciding};
ghost use Rattle.fx_text.specs.Needs.{AreMade};
ghost use Rattle.fx_text.specs.ReaderState.{IsReady};
ghost use Rattle.fx_text.specs.Head.{ReadsHead, leaf_term, double_term};
ghost use Rattle.fx_text.specs.Made.{CanMake, Makes, MakesTree};

use crate::fault::ReadError;
use crate::form::Form;
use crate::reader::Reader;
use crate::reader::head::{Double, Head, Inner, Then};
use fx_term::{Arg, Node, NodeId};
use std::alloc::AllocError;

/// The slots of the names of a race.
#[derive(Clone, Copy)]
pub(crate) struct RaceSlots {
    /// The poll of its mask.
    pub(crate) mask: u32,
    pub(crate) left: u32,
    pub(crate) right: u32,
    /// Which of the two has ended first.
    pub(crate) ended: u32,
    /// The number of an outcome.
    pub(crate) number: u32,
}

/// The slots of a race whose mask has this one.
fn race_slots(mask: u32) -> RaceSlots
    requires { mask + 4 < 2 ^ 32 }
    ensures { result ≡ race_slots mask }
{
    RaceSlots {
        mask,
        left: mask + 1,
        right: mask + 2,
        ended: mask + 3,
        number: mask + 4,
    }
}

impl<'a> Reader<'a> {
    #[tactic(auto, using(crate::proofs::ScopeLaws::slot_at))]
    pub(super) fn race_head(&self, bytes: &'a [u8]) -> Result<(Head<'a>, &'a [u8]), ReadError>
        requires { IsReady 2 self.now bytes.now }
        ensures { ReadsHead Form.Race self.now bytes.now result }
    {
        let slots = race_slots(self.names.len() as u32);
        let then = Then::Two(Inner::RaceRight, Double::Race(slots));
        Ok((Head::Part(Inner::RaceLeft, then), bytes))
    }

    /// Cancels both fibers, and waits for each.
    fn cancel_both(&mut self, slots: RaceSlots) -> Result<NodeId, AllocError>
        requires made { AreMade self.old.nodes.items self.old.needs.items }
        requires small { length self.old.nodes.items + 3 ≤ most_nodes }
        ensures { IfOk result
            (λ root. MakesTree self.old self.new 3 (cancel_both slots) root.0) }
    {
        let left = self.add(Node::Cancel(slots.left))?;
        let right = self.add(Node::Cancel(slots.right))?;
        Ok(self.add(Node::Let(None, left, right))?)
    }

    /// Cancels a fiber, and then is what this node is.
    fn cancel_then(&mut self, fiber: u32, node: Node) -> Result<NodeId, AllocError>
        requires made { AreMade self.old.nodes.items self.old.needs.items }
        requires small { length self.old.nodes.items + 3 ≤ most_nodes }
        requires childless { children node ≡ [] }
        ensures { IfOk result (λ root. MakesTree self.old self.new 3
            (Let None (Cancel (Slot fiber)) (leaf_term node)) root.0) }
    {
        let canceled = self.add(Node::Cancel(fiber))?;
        let then = self.add(node)?;
        Ok(self.add(Node::Let(None, canceled, then))?)
    }

    /// The outcome of a fiber.
    fn outcome_of(&mut self, slots: RaceSlots, fiber: u32) -> Result<NodeId, AllocError>
        requires made { AreMade self.old.nodes.items self.old.needs.items }
        requires small { length self.old.nodes.items + 6 ≤ most_nodes }
        ensures { IfOk result
            (λ root. MakesTree self.old self.new 6 (outcome_of slots fiber) root.0) }
    {
        let number = slots.number;
        let succeeded = self.add(Node::Pure(Arg::Slot(number)))?;
        let errored = self.add(Node::Raise(Arg::Slot(number)))?;
        let canceled = self.add(Node::Canceled)?;
        let never = self.add(Node::Never)?;
        let ended = self.add(Node::Let(None, canceled, never))?;
        Ok(self.add(Node::Join(fiber, number, succeeded, number, errored, ended))?)
    }

    /// What is done where that fiber has ended first.
    fn decided(&mut self, slots: RaceSlots, first: u32, other: u32) -> Result<NodeId, AllocError>
        requires made { AreMade self.old.nodes.items self.old.needs.items }
        requires small { length self.old.nodes.items + 18 ≤ most_nodes }
        ensures { IfOk result
            (λ root. MakesTree self.old self.new 18 (decided slots first other) root.0) }
    {
        let number = slots.number;
        let succeeded = self.cancel_then(other, Node::Pure(Arg::Slot(number)))?;
        let errored = self.cancel_then(other, Node::Raise(Arg::Slot(number)))?;
        let outcome = self.outcome_of(slots, other)?;
        let polled = self.add(Node::Poll(slots.mask, outcome))?;
        let both = self.cancel_both(slots)?;
        let canceled = self.add(Node::OnCancel(polled, both))?;
        Ok(self.add(Node::Join(first, number, succeeded, number, errored, canceled))?)
    }

    /// Waits until one has ended. Where that is canceled, both are.
    fn waited(&mut self, slots: RaceSlots) -> Result<NodeId, AllocError>
        requires made { AreMade self.old.nodes.items self.old.needs.items }
        requires small { length self.old.nodes.items + 6 ≤ most_nodes }
        ensures { IfOk result
            (λ root. MakesTree self.old self.new 6 (waited slots) root.0) }
    {
        let first = self.add(Node::First(slots.left, slots.right))?;
        let polled = self.add(Node::Poll(slots.mask, first))?;
        let both = self.cancel_both(slots)?;
        Ok(self.add(Node::OnCancel(polled, both))?)
    }

    /// Waits until one has ended, and goes on by which one it was.
    fn deciding(&mut self, slots: RaceSlots) -> Result<NodeId, AllocError>
        requires made { AreMade self.old.nodes.items self.old.needs.items }
        requires small { length self.old.nodes.items + 44 ≤ most_nodes }
        ensures { IfOk result
            (λ root. MakesTree self.old self.new 44 (deciding slots) root.0) }
    {
        let waited = self.waited(slots)?;
        let right = self.decided(slots, slots.right, slots.left)?;
        let left = self.decided(slots, slots.left, slots.right)?;
        let chosen = self.add(Node::If(Arg::Slot(slots.ended), right, left))?;
        Ok(self.add(Node::Let(Some(slots.ended), waited, chosen))?)
    }

    /// The race of these two.
    pub(super) fn race_node(
        &mut self,
        slots: RaceSlots,
        left: NodeId,
        right: NodeId,
    ) -> Result<NodeId, AllocError>
        requires { CanMake 47 self.old (left ∷ right ∷ []) }
        ensures { let part = λ (id : NodeId). term_of self.old.nodes.items id.0 in
            IfOk result (λ root. Makes 47 self.old self.new (left ∷ right ∷ [])
            (double_term (Double.Race slots) (part left) (part right)) root.0) }
    {
        let deciding = self.deciding(slots)?;
        let second = self.add(Node::Start(slots.right, right, deciding))?;
        let first = self.add(Node::Start(slots.left, left, second))?;
        Ok(self.add(Node::Mask(slots.mask, first))?)
    }
}
