//! Events with their stamps.

use crate::event::Event;

/// An event of a trace, and its stamp: one more than those of the events that it stands on.
#[derive(Clone, Copy, PartialEq, Eq, Debug)]
pub struct Stamped {
    pub event: Event,
    pub stamp: u64,
}
