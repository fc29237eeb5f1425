//! Where the fibers of a report stood as they showed their events, and of whose ends they learned. A report keeps no places,
//! since a run on threads would pay for each; but a fiber's steps hang on nothing else than on what it began with and what it
//! was answered, and its trace tells that. So each fiber is made to step again along its trace.
//!
//! Its rules:
//!
//! 1. What is told is so by runs of the fibers that show their traces, end as the report says, and learn how others
//!    ended as the report says; each fiber begins as a start of these runs says. A lawful report is lawful by these
//!    runs, too ([`laws`]).
//! 2. Where a request was seen a trace tells only between two events. A fiber sees one once, so the open places
//!    between these are tried in turn, until the rest of the trace is found.
//! 3. Where a place has no node of its own, the last node is told at which the fiber stood before, by silent steps too
//!    ([`Stand`]).
//! 4. Nothing is told of a report in which one fiber cannot be followed.
#![tactic(auto)]

mod all_fibers;
mod budget;
mod ending;
mod expecting;
pub mod laws;
mod one_fiber;
mod stand;
mod trail;

pub use all_fibers::follow;
pub use stand::Stand;
