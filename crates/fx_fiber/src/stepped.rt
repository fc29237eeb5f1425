//! The answers of a step.

use crate::fiber::Fiber;
use crate::port::Port;
use fx_model::Source;

/// What a step of a fiber did.
#[derive(Drop)]
pub enum Stepped<P: Port> {
    /// It took one step, and the fiber goes on.
    Went,
    /// It started this fiber, and goes on.
    Child(Fiber<P>),
    /// It made no rule, since the fiber waits for that; nothing has changed.
    Waits(Source),
    /// It made the rule of `cede`: the fiber goes on, after others.
    Gave,
    /// It made the last rule: the fiber has ended.
    Ended,
}
