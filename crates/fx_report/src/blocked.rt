//! A fiber that is blocked, and where it stands.

use crate::wait::Wait;
use fx_term::NodeId;

/// A fiber that has not ended when no fiber can step any more: what it waits for, and the node where it stands,
/// if that has one: who awaits a fiber that it canceled has none.
#[derive(Clone, Copy, PartialEq, Eq, Debug)]
pub struct Blocked {
    pub wait: Wait,
    pub node: Option<NodeId>,
}
