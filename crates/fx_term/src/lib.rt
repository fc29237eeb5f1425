//! The words that all other crates speak: how a fiber ends, what its trace shows, what a queue holds,
//! and the checked code of a script.
//!
//! A [`Code`] is one well-scoped term, kept as a list of nodes. Its rules, in the order in which
//! [`Code::build`] tests them:
//!
//! 1. There is a node, and a node's number fits in 32 bits.
//! 2. A node's children stand before it, and no node is a child twice.
//! 3. Each node but the last is a child, so the last one is the root.
//! 4. From the root down, node by node: a binder has the number of names in whose scope it stands, and
//!    a name that is used is in scope there, and a queue that is named is one of the script's; then, that name is of the kind that it is used as, a
//!    value, a poll or a fiber, and a poll is none of another fiber: one whose mask stands outside of
//!    the part that a start gives to a new fiber; then, the node can use at most 4,095 fiber
//!    numbers, and the counts of the loops round its part have a product of at most 1,000,000, a
//!    count of 0 taken as 1.
//!
//! A `Code` never changes, and nothing but `build` makes one.
#![tactic(auto)]

mod begin;
mod code;
mod done;
mod event;
mod item;
pub mod laws;
mod memory;
mod name_kind;
mod node;
mod offered;
mod outcome;
mod queue_event;
mod registers;
mod stamped;

pub use begin::Begin;
pub use code::{Code, CodeBrand, CodeFault, MOST_NEED, MOST_TURNS, need_of_node, turns_of_loop};
pub use done::Done;
pub use event::Event;
pub use item::Item;
pub use memory::Memory;
pub use name_kind::NameKind;
pub use node::{Arg, Node, NodeId};
pub use offered::Offered;
pub use outcome::Outcome;
pub use queue_event::QueueEvent;
pub use registers::Registers;
pub use stamped::Stamped;
