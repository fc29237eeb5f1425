//! The events of a trace.

use crate::outcome::Outcome;

/// One entry of a fiber's trace.
#[derive(Clone, Copy, PartialEq, Eq, Debug)]
pub enum Event {
    /// Started the fiber of this number.
    Start(u32),
    /// Requested the cancellation of that fiber.
    Request(u32),
    /// Waited until the fiber that it canceled had ended.
    Awaited(u32),
    /// Found that fiber to have ended so.
    Joined(u32, Outcome),
    /// Of two fibers found the left one (0) or the right one (1) to have ended.
    First(u8),
    /// Put a value into the queue of this number.
    Put(u8, u64),
    /// Took a value out of that queue.
    Got(u8, u64),
    /// Found that queue full.
    Refused(u8),
    /// Found that queue empty.
    Empty(u8),
    /// Acquired its resource of this number.
    Acquired(u64),
    /// Began to release that resource.
    Begin(u64),
    /// Ended the release of that resource.
    End(u64),
    /// Found that its own cancellation was requested.
    Seen,
    /// Canceled itself where cancellation is masked.
    SelfRequest,
    /// Was canceled: what it was at is given up, and its clean-ups run.
    Cancelled,
    /// Ended so. Nothing follows.
    Ended(Outcome),
}
