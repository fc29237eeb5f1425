//! The answer to an offer.

/// The answer to an offer of an element to a queue.
#[derive(Clone, Copy, PartialEq, Eq, Debug)]
pub enum Offered {
    /// The element was put at the back.
    Done,
    /// The queue was full, and nothing was put.
    Full,
}
