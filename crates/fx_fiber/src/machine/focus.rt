//! The place inside all contexts.

use fx_term::{Done, NodeId, Outcome};

/// What stands inside all contexts, or what there is in their place.
#[derive(Clone, Copy, PartialEq, Eq)]
pub enum Focus {
    /// The term of this node.
    Eval(NodeId),
    /// The result of the term that stood there.
    Return(Done),
    /// The loop of the `for` of this node, before its turn of this number.
    Turn(NodeId, u32),
    /// The fiber canceled the one of this number, and waits until that has ended. The place is sealed.
    Await(u32),
    /// The fiber was canceled, and is between two clean-ups.
    Unwinding,
    /// The fiber has ended so.
    Ended(Outcome),
}
