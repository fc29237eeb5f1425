//! How a fiber ended.

/// How a fiber ended (Cats Effect's `Outcome`).
#[derive(Clone, Copy, PartialEq, Eq, Debug)]
pub enum Outcome {
    /// With this value.
    Succeeded(u64),
    /// With this error, which nothing handled.
    Errored(u64),
    /// By cancellation, after its finalizers ran.
    Canceled,
}
