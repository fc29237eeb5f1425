//! The picture of a run: a space-time diagram of a report, as one text in SVG.
//!
//! | what is drawn | how |
//! |---|---|
//! | a fiber | a lane from top to bottom, with its number, its name and its end above, and what it waits for below |
//! | a queue | a lane right of these |
//! | an event | a mark in its fiber's lane, with the line of its trace as a title, and what is told of it |
//! | a long run of events at queues and of resources | one mark, with how many they are, and their lines as a title |
//! | an event at a queue | a line to that queue's lane, with what was put or taken |
//! | a cause | an arrow from its mark to that of the event that it caused |
//! | a life, clean-ups, a resource that is held, a closed place | a bar from the event that begins it to that which ends it |
//! | how many elements a queue holds | the number on its lane, where that is told |
//!
//! Left of them stands a legend.
//!
//! Its rules:
//!
//! 1. Time goes down: the events of all fibers are drawn in the one order of `fx_order`, a row each, but for
//!    those of one lane, eight or more after each other, at which no arrow can begin or end: they stand in the
//!    row of the first. So each event is in one row, and arrows go down.
//! 2. An arrow goes to a fiber's first event from the start of the fiber; to an event that tells of the end of
//!    a fiber, by its number, from that end; and to one that sees a request, from each request for its fiber
//!    above it.
//! 3. Which put a `got` took, and which of two fibers a `first` found, the events of a report do not say. An arrow goes to
//!    these from the event that is told to have caused them, and else from none.
//! 4. A bar goes to the first event of its fiber that ends it, and to the foot of the picture where there is
//!    none.
//! 5. How many elements a queue holds after an event is drawn where it is told: the order of the list need not be that in
//!    which the queue was used.
//! 6. The text is exactly the rendering of one tree of elements, so it is a well-formed document: that is a
//!    law, in [`laws`].
//!
//! What never happens: an arrow that goes up; a text where memory ran out.
#![tactic(auto)]

mod arrows;
mod bar;
mod bars;
mod cause;
mod drawn;
mod elements;
mod fault;
mod handle;
mod labels;
mod lanes;
pub mod laws;
mod layout;
mod legend;
mod look;
mod marks;
mod picture;
mod queues;
mod sheet;
mod stood;
mod tail;
mod visit;

pub use cause::Cause;
pub use fault::PictureFault;
pub use handle::Handle;
pub use layout::MOST_EVENTS;
pub use picture::format_picture;
pub use stood::{EventAt, Stood};
