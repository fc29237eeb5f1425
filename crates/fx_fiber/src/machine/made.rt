//! What was made in one step.

use fx_model::Source;
use fx_term::{Event, NodeId, Outcome};

/// Which rule was made, by what it shows.
#[derive(Clone, Copy)]
pub(crate) enum Made {
    /// One that shows nothing.
    Silent,
    /// The rule of `cede`, which shows nothing.
    Yielded,
    /// One that shows this event.
    Shows(Event),
    /// One for which the fiber of this number had to have ended, and had ended so; it shows this event.
    Learns(u32, Outcome, Event),
    /// None: the fiber waits for that.
    Waits(Source),
    /// None yet: a `start` stands here, with the slot of its name, the part that its fiber runs, and the
    /// one that goes on. Its rule makes the fiber, over a port of its own.
    Starts(u32, NodeId, NodeId),
}
