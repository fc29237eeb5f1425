//! What comes before the rule of an open place.

/// What is made at an open place in place of the rule that stands there.
#[derive(Clone, Copy)]
pub(crate) enum Interruption {
    /// Cancellation is the one rule.
    Cancellation,
    /// A request was seen.
    Request,
}
