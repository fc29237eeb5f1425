//! What is told of the run that a schedule chooses, step by step.

use crate::passed::PassedPick;
use fx_term::{Event, NodeId};

/// A step of a fiber.
#[derive(Clone, Copy)]
pub struct MadeStep {
    /// The fiber's number.
    pub fiber: u32,
    /// The node where it stood, as [`Fiber::node`](fx_fiber::Fiber::node) tells.
    pub node: Option<NodeId>,
    /// Whether that place was open, as [`Fiber::is_open`](fx_fiber::Fiber::is_open) tells.
    pub is_open: bool,
    /// What the step showed, if it did.
    pub event: Option<Event>,
    /// The fiber of whose end the step learned, if it did.
    pub learned: Option<u32>,
}

/// What a run has made next, or which pick of the schedule it has passed over.
#[derive(Clone, Copy)]
pub enum Told {
    /// A step, by a pick or after the last one.
    Step(MadeStep),
    /// A request for this fiber from outside.
    Request(u32),
    /// A pick that is passed over.
    Passed(PassedPick),
}
