//! Whether a machine can step.
ghost use Rattle.std.specs.Prelude.{◌≡◌, ◌&&◌, ◌||◌, List};
ghost use Rattle.fx_term.specs.declared.node.Node.{Node};
ghost use Rattle.fx_model.specs.Outside.{leaf_can_step, can_step};
ghost use Rattle.fx_model.specs.Closed.{outside_of};
ghost use Rattle.fx_fiber.specs.Fiber.{is_fiber_number};
ghost use Rattle.fx_model.specs.Scopes.{IsProgressScopedOver};
ghost use Rattle.fx_fiber.specs.Machine.{counts_of, progress_of};
ghost use Rattle.fx_fiber.specs.Sound.{IsSoundMachine};
ghost use Rattle.fx_fiber.specs.LeafBelow.{IsLeafBelow, term_at};

use crate::machine::Machine;
use crate::machine::focus::Focus;
use crate::machine::leaf_below::LeafBelow;
use fx_model::Closed;
use fx_term::Code;

impl Machine {
    /// Whether the machine of this fiber can step where the outside is as a run left it.
    pub fn can_step(&self, code: &Code, fiber: u32, closed: &Closed) -> bool
        ghost nodes: { List Node }
        requires code { code.now.nodes ≡ nodes }
        requires sound { IsSoundMachine nodes self.now }
        requires scoped { IsProgressScopedOver is_fiber_number (progress_of nodes self.now) }
        ensures { result ≡ can_step (outside_of closed.now) fiber (counts_of self.now)
            (progress_of nodes self.now) }
    {
        match self.focus {
            Focus::Eval(from) => {
                let leaf = self.leaf_below(code, from);
                let is_requested = closed.is_requested(fiber);
                self.is_interrupted_at(leaf, is_requested) || self.goes_on(leaf, closed)
            }
            Focus::Await(other) => closed.has_ended(other),
            Focus::Return(_) | Focus::Turn(..) | Focus::Unwinding => true,
            Focus::Ended(_) => false,
        }
    }

    /// Whether cancellation is due at the leaf, or a request is to be seen there.
    fn is_interrupted_at(&self, leaf: LeafBelow, is_requested: bool) -> bool
        ensures { result ≡ (leaf.is_open && (self.now.known || is_requested)) }
    {
        leaf.is_open && (self.known || is_requested)
    }

    /// Whether the leaf does not wait.
    fn goes_on(&self, leaf: LeafBelow, closed: &Closed) -> bool
        ghost nodes: { List Node }
        requires below { IsLeafBelow nodes self.now leaf }
        requires scoped { IsProgressScopedOver is_fiber_number (progress_of nodes self.now) }
        ensures { result ≡ leaf_can_step (outside_of closed.now)
            (term_at nodes self.now.registers leaf.node) }
    {
        match self.source_at(leaf) {
            Some(source) => closed.has_come(source),
            None => true,
        }
    }
}
