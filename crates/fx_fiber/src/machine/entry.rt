//! The contexts that are entered at nodes.
ghost use Rattle.std.specs.Prelude.{◌≡◌, Some, MatchOption};
ghost use Rattle.fx_fiber.specs.Leaves.{IsEntryOf, IsLeafNode, is_canceled_node};

use fx_frames::Frame;
use fx_term::{Node, NodeId};

/// The context that is entered at this node, and the part that stands in it. A leaf has none.
#[inline(always)]
pub(crate) fn entry_of(id: NodeId, node: &Node) -> Option<(Frame, NodeId)>
    ensures { MatchOption result (IsLeafNode (Some node.now))
        (λ entry. IsEntryOf id node.now entry.0 entry.1) }
{
    match *node {
        Node::Let(name, first, second) => Some((Frame::Let(name, second), first)),
        Node::Handle(first, name, handler) => Some((Frame::Handle(name, handler), first)),
        Node::OnCancel(first, finalizer) => Some((Frame::OnCancel(finalizer), first)),
        Node::Bracket(_, acquire, _, _) => Some((Frame::Acquire(id), acquire)),
        Node::BracketCase(_, acquire, ..) => Some((Frame::AcquireCase(id), acquire)),
        Node::Pure(_)
        | Node::Raise(_)
        | Node::Canceled
        | Node::Never
        | Node::Cede
        | Node::If(..)
        | Node::For(..)
        | Node::Mask(..)
        | Node::Poll(..)
        | Node::Start(..)
        | Node::Join(..)
        | Node::Cancel(_)
        | Node::First(..)
        | Node::Offer(..)
        | Node::TryOffer(..)
        | Node::Take(_)
        | Node::TryTake(..) => None,
    }
}

/// Whether the node is `canceled`.
#[inline(always)]
pub(crate) fn is_canceled(node: &Node) -> bool
    ensures { result ≡ is_canceled_node node.now }
{
    matches!(node, Node::Canceled)
}
