//! The sides of a queue.

/// The side of a queue at which a fiber waits.
#[derive(Clone, Copy, PartialEq, Eq, Debug)]
pub enum Side {
    /// For room, to put an element.
    Room,
    /// For an element, to take it.
    Element,
}
