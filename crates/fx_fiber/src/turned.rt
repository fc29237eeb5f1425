//! The answers of a turn.

use crate::fiber::Fiber;
use crate::port::Port;

/// What a turn of a fiber came to.
#[derive(Drop)]
pub enum Turned<P: Port> {
    /// The fiber started this one, and goes on.
    Child(Fiber<P>),
    /// The fiber has ended.
    Ended,
    /// Memory was refused; the fiber stands as after its last step.
    Memory,
}
