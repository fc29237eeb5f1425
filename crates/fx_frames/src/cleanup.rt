//! What is done where a fiber is canceled.

use fx_term::NodeId;

/// What a context leaves to be done where its fiber is canceled.
#[derive(Clone, Copy, PartialEq, Eq, Debug)]
pub enum Cleanup {
    /// Runs the finalizer of an `oncancel`.
    Finalizer(NodeId),
    /// Runs the release of the resource of this number.
    Release(u64, NodeId),
}
