//! How many elements queues held after the events of a report, and which puts the gets took, by histories that fit the report.
//! A list of the events tells this where what it has of a queue is a legal history, with what is left as its rest: that fits the
//! report if each fiber's events stand in their own order there. Of each put and get it is told then what the queue held after it
//! by that history, and of each get which put it took; else nothing is told.
//!
//! The order of stamps puts causes first and is no order in time, so what it has of a queue need not be what the queue went
//! through. `order_by_queues` looks for an order in which each queue has a history.
#![tactic(auto)]

mod at_queue;
mod counting;
pub mod laws;
mod needs;
mod order;
mod queue_so_far;
mod reordered;
mod search;
mod search_state;
mod steps;

pub use at_queue::AtQueue;
pub use counting::counts;
pub use order::order_by_queues;
