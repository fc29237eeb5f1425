//! The table of nodes: the contexts that are entered, and the rules of leaves that show nothing, ask the port nothing
//! and do not yield.
ghost use Rattle.std.specs.Prelude.{◌≡◌, ◌^◌, ◌<◌, true, false, IfOk, OnErr};
ghost use Rattle.fx_fiber.specs.Leaves.{IsEntryOf, is_silent_node};
ghost use Rattle.fx_fiber.specs.Places.{IsSame, IsEvaluating, must_cancel_machine};
ghost use Rattle.fx_fiber.specs.Makes.{DoesRow};

use crate::machine::Machine;
use fx_frames::Frame;
use fx_term::{Memory, Node, NodeId};

/// What the row of a node did.
#[derive(Clone, Copy)]
pub(crate) enum NodeRow {
    /// It entered a context, which is no step. This part stands in it.
    Entered(NodeId),
    /// It made the rule of a leaf, which shows nothing.
    Made,
    /// It did nothing, since another leaf stands there.
    Other,
}

impl Machine {
    ghost use Rattle.std.specs.Prelude.{List};
    ghost use Rattle.fx_term.specs.declared.node.Node.{Node};

    /// The row of a node: its context is entered, or the rule of the leaf is made, where that is silent.
    // (one match, so that a burst finds by one jump what a node is: after `entry_of` it would take two)
    #[inline(always)]
    pub fn node_row(&mut self, id: NodeId, node: &Node) -> Result<NodeRow, Memory>
        ghost nodes: { List Node }
        requires at { IsEvaluating nodes self.old id node.now }
        requires free { is_silent_node node.now ≡ true → must_cancel_machine nodes self.old ≡ false }
        requires countable { self.old.masks.entries < 2 ^ 63 }
        ensures ok { IfOk result (λ row. DoesRow nodes self.old id node.now row self.new) }
        ensures err { OnErr result (IsSame nodes self.old self.new) }
    {
        match *node {
            Node::Let(name, a, b) => return self.enters(id, node, Frame::Let(name, b), a),
            Node::Handle(a, name, b) => return self.enters(id, node, Frame::Handle(name, b), a),
            Node::OnCancel(a, b) => return self.enters(id, node, Frame::OnCancel(b), a),
            Node::Bracket(_, a, _, _) => return self.enters(id, node, Frame::Acquire(id), a),
            Node::BracketCase(_, a, ..) => return self.enters(id, node, Frame::AcquireCase(id), a),
            Node::Pure(value) => self.pure(value),
            Node::Raise(error) => self.raise(error),
            Node::If(value, part, other) => self.if_rule(value, part, other),
            Node::For(..) => self.for_begins(id),
            Node::Mask(name, part) => self.mask(name, part)?,
            Node::Poll(name, part) => self.poll(name, part)?,
            Node::Canceled
            | Node::Never
            | Node::Cede
            | Node::Start(..)
            | Node::Join(..)
            | Node::Cancel(_)
            | Node::First(..)
            | Node::Offer(..)
            | Node::TryOffer(..)
            | Node::Take(_)
            | Node::TryTake(..) => return Ok(NodeRow::Other),
        }
        Ok(NodeRow::Made)
    }

    /// The row of a node at which a context is entered.
    #[inline(always)]
    fn enters(
        &mut self,
        id: NodeId,
        node: &Node,
        frame: Frame,
        first: NodeId,
    ) -> Result<NodeRow, Memory>
        ghost nodes: { List Node }
        requires at { IsEvaluating nodes self.old id node.now }
        requires entry { IsEntryOf id node.now frame first }
        ensures ok { IfOk result (λ row. DoesRow nodes self.old id node.now row self.new) }
        ensures err { OnErr result (IsSame nodes self.old self.new) }
    {
        self.enter_frame(frame, first)?;
        Ok(NodeRow::Entered(first))
    }
}
