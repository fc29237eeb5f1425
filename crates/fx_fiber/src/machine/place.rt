//! Where a machine stands: at which node, and whether that place is open.
ghost use Rattle.std.specs.Prelude.{◌≡◌, List, MatchOption};
ghost use Rattle.fx_term.specs.declared.node.Node.{Node};
ghost use Rattle.fx_model.specs.Step.{leaf_at};
ghost use Rattle.fx_fiber.specs.Machine.{progress_of};
ghost use Rattle.fx_fiber.specs.NodePlaces.{is_open_at, IsPlaceOf, HasNoNode};
ghost use Rattle.fx_fiber.specs.Sound.{IsSoundMachine};

use crate::machine::Machine;
use crate::machine::focus::Focus;
use fx_term::{Code, NodeId};

impl Machine {
    /// Whether the place is open where the machine stands: nothing closes it. Between clean-ups and at its end it
    /// has none.
    pub fn is_open_at_leaf(&self, code: &Code) -> bool
        ghost nodes: { List Node }
        requires code { code.now.nodes ≡ nodes }
        requires sound { IsSoundMachine nodes self.now }
        ensures { result ≡ is_open_at (progress_of nodes self.now) }
    {
        match self.focus {
            Focus::Eval(from) => self.leaf_below(code, from).is_open,
            Focus::Return(_) | Focus::Turn(..) => self.is_open(),
            Focus::Await(_) | Focus::Unwinding | Focus::Ended(_) => false,
        }
    }

    /// The node of the leaf where the machine stands, or of the loop of which a turn comes next; none where it
    /// stands with a result, awaits another fiber, is between two clean-ups or has ended.
    pub fn node(&self, code: &Code) -> Option<NodeId>
        ghost nodes: { List Node }
        requires code { code.now.nodes ≡ nodes }
        requires sound { IsSoundMachine nodes self.now }
        ensures { MatchOption result (HasNoNode (leaf_at (progress_of nodes self.now)))
            (IsPlaceOf nodes self.now.registers (leaf_at (progress_of nodes self.now))) }
    {
        match self.focus {
            Focus::Eval(from) => Some(self.leaf_below(code, from).id),
            Focus::Turn(id, _turn) => Some(id),
            Focus::Return(_) | Focus::Await(_) | Focus::Unwinding | Focus::Ended(_) => None,
        }
    }
}
