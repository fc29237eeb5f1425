//! The contexts that a fiber has entered, and what they leave to be done where it is canceled.
//!
//! A context waits for the result of the part that stands in it. A canceled fiber gives all its
//! contexts up for their clean-ups, which then run one by one, from the inside out.
//!
//! | context | the part that stands in it | its clean-up |
//! |---|---|---|
//! | `Let`, `Handle` | the first part | none |
//! | `OnCancel` | the first part | the finalizer |
//! | `Acquire`, `AcquireCase` | the acquire part of a bracket | none |
//! | `Using` | its use | the release |
//! | `UsingCase` | its use | the release after cancellation |
//! | `Releasing` | its release | none |
//! | `Masked` | the inside of a mask | none |
//! | `Opened` | the inside of a poll | none |
//! | `Loop` | one turn of a loop | none |
//!
//! | what is done | the contexts, the innermost first |
//! |---|---|
//! | `new` | none |
//! | `push` | that one, and all that were |
//! | `pop` | all but the innermost |
//! | `replace` | all but the innermost, and that one in its stead |
//! | `next_turn` | the same, of which the innermost, a loop, has the turn after the one that it had |
//! | `unwind` | none: its `Unwinding` has their clean-ups, of which each `next` takes the innermost |
//!
//! 1. A context is entered and left at the inner end alone.
//! 2. Each clean-up comes once, from the inside out, and none is left out.
//! 3. An `Unwinding` that has come to its end stays there.
//! 4. `replace`, `next_turn`, `unwind` and `next` take no memory. Where it runs out in `push`, nothing has changed.
#![tactic(auto)]

mod cleanup;
mod frame;
mod frames;
mod unwinding;

pub use cleanup::Cleanup;
pub use frame::Frame;
pub use frames::Frames;
pub use unwinding::Unwinding;
