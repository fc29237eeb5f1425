//! The events of all fibers of a report in one list, a log of the run that can be read from top to bottom.
//!
//! The list is ordered by stamp, then by the fiber's number, then by the place in the fiber's trace. What
//! is promised of it:
//!
//! 1. Each event of the report stands in it once, with its stamp, and nothing else does.
//! 2. Where the stamps are those of a lawful report and none has come to the greatest number, each
//!    fiber's events keep their order, and each event comes after what it stands on: a get after the put
//!    of what it took, what is learnt of an end after that end, a fiber's first event after its start, and
//!    a request that is seen after some request, unless one came from outside.
//!
//! It is no order in time: of two events of which neither stands on the other either may come first.
#![tactic(auto)]

mod occurrence;
mod order;

pub use occurrence::Occurrence;
pub use order::order_by_stamp;
