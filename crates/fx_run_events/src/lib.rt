//! The events of a run on threads, with what is found of them afterwards: a report has no places, no counts, and of a get and
//! of the first of two fibers no cause.
//!
//! | what is found | by what | where it may be missing |
//! |---|---|---|
//! | where the fiber stood, and of whose end its step learned | its trace, by which it is made to step again (`fx_follow`) | where no such run is found |
//! | how many elements its queue held, and which put a get took | an order of all events, if one is found (`fx_counts`) | at queues where it is none |
//! | which put a get took | its value, where that was put into the queue once | where it was put more often |
//!
//! What caused an event is found by these three. That it did, by runs and histories that make the report lawful, and that
//! nothing else is told, are the [`laws`].
#![tactic(auto)]

mod all_events;
mod causes;
mod counted;
pub mod laws;
mod ran_event;
mod sole_puts;
mod stands;

pub use all_events::ran_events;
pub use counted::{Counted, counts_told};
pub use ran_event::RanEvent;
pub use stands::stands_told;
