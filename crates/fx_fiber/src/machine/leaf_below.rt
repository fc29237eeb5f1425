//! The leaf that a machine comes to by entering contexts, seen without entering them.
ghost use Rattle.std.specs.Prelude.{◌≡◌, List};
ghost use Rattle.fx_term.specs.declared.node.Node.{Node};
ghost use Rattle.fx_fiber.specs.Sound.{IsSoundMachine};
ghost use Rattle.fx_fiber.specs.LeafBelow.{IsLeafBelow, is_open_inside};

use crate::machine::Machine;
use crate::machine::entry::entry_of;
use crate::machine::focus::Focus;
use fx_frames::Frame;
use fx_term::{Code, Node, NodeId};

/// The leaf that a machine comes to by entering contexts alone, by its number, and whether the place there is open.
#[derive(Clone, Copy)]
pub(crate) struct LeafBelow {
    pub id: NodeId,
    pub node: Node,
    pub is_open: bool,
}

/// Whether a place is open inside a context that is entered where it is open or not.
fn stays_open(frame: Frame, is_open: bool) -> bool
    ensures { result ≡ is_open_inside frame is_open }
{
    match frame {
        Frame::Acquire(_) | Frame::AcquireCase(_) => false,
        _ => is_open,
    }
}

impl Machine {
    /// The leaf of the machine, which stays where it is.
    pub(crate) fn leaf_below(&self, code: &Code, from: NodeId) -> LeafBelow
        ghost nodes: { List Node }
        requires code { code.now.nodes ≡ nodes }
        requires sound { IsSoundMachine nodes self.now }
        requires focus { self.now.focus ≡ Focus.Eval from }
        ensures { IsLeafBelow nodes self.now result }
    {
        let mut id = from;
        let mut is_open = self.is_open();
        'contexts: loop {
            let node = code.node(id);
            let Some((frame, first)) = entry_of(id, node) else {
                return LeafBelow {
                    id,
                    node: *node,
                    is_open,
                };
            };
            is_open = stays_open(frame, is_open);
            id = first;
        }
    }
}
