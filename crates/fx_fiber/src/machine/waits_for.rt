//! What a machine waits for.
ghost use Rattle.std.specs.Prelude.{◌≡◌, List, option_and_then};
ghost use Rattle.fx_term.specs.declared.node.Node.{Node};
ghost use Rattle.fx_model.specs.Step.{leaf_at};
ghost use Rattle.fx_model.specs.Waiting.{wait_at};
ghost use Rattle.fx_fiber.specs.Fiber.{is_fiber_number};
ghost use Rattle.fx_model.specs.Scopes.{IsProgressScopedOver};
ghost use Rattle.fx_fiber.specs.Machine.{progress_of};
ghost use Rattle.fx_fiber.specs.Sound.{IsSoundMachine};
ghost use Rattle.fx_fiber.specs.LeafBelow.{IsLeafBelow, term_at};

use crate::machine::Machine;
use crate::machine::focus::Focus;
use crate::machine::leaf_below::LeafBelow;
use fx_model::Source;
use fx_term::{Code, Node};

impl Machine {
    /// What the machine waits for at its leaf, if that is one that can wait.
    pub fn waits_for(&self, code: &Code) -> Option<Source>
        ghost nodes: { List Node }
        requires code { code.now.nodes ≡ nodes }
        requires sound { IsSoundMachine nodes self.now }
        requires scoped { IsProgressScopedOver is_fiber_number (progress_of nodes self.now) }
        ensures { result ≡ option_and_then wait_at (leaf_at (progress_of nodes self.now)) }
    {
        match self.focus {
            Focus::Eval(from) => {
                let leaf = self.leaf_below(code, from);
                self.source_at(leaf)
            }
            Focus::Await(fiber) => Some(Source::Outcome(fiber)),
            Focus::Return(_) | Focus::Turn(..) | Focus::Unwinding | Focus::Ended(_) => None,
        }
    }

    /// The same, soonest at an `offer` or a `take`.
    #[inline(always)]
    pub fn waits_at_queue(&self, code: &Code) -> Option<Source>
        ghost nodes: { List Node }
        requires code { code.now.nodes ≡ nodes }
        requires sound { IsSoundMachine nodes self.now }
        requires scoped { IsProgressScopedOver is_fiber_number (progress_of nodes self.now) }
        ensures { result ≡ option_and_then wait_at (leaf_at (progress_of nodes self.now)) }
    {
        if let Focus::Eval(id) = self.focus {
            match *code.node(id) {
                Node::Offer(queue, _value) => return Some(Source::Room(queue)),
                Node::Take(queue) => return Some(Source::Element(queue)),
                _ => {}
            }
        }
        self.waits_for(code)
    }

    /// What the leaf waits for, if it is one that can wait.
    pub(crate) fn source_at(&self, leaf: LeafBelow) -> Option<Source>
        ghost nodes: { List Node }
        requires below { IsLeafBelow nodes self.now leaf }
        requires scoped { IsProgressScopedOver is_fiber_number (progress_of nodes self.now) }
        ensures { result ≡ wait_at (term_at nodes self.now.registers leaf.node) }
    {
        match leaf.node {
            Node::Never => Some(Source::Nothing),
            Node::Join(fiber, ..) => Some(Source::Outcome(self.fiber_of(fiber))),
            Node::First(left, right) => {
                let left = self.fiber_of(left);
                let right = self.fiber_of(right);
                Some(Source::Either(left, right))
            }
            Node::Offer(queue, _) => Some(Source::Room(queue)),
            Node::Take(queue) => Some(Source::Element(queue)),
            _ => None,
        }
    }
}
