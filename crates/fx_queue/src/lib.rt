//! Bounded queues that fibers share, each with a history.
//!
//! The elements of a queue stand in a ring of slots that threads share without a lock. A pass is what
//! a fiber has of a queue: who holds it acts there for that fiber, on whatever thread. The history of a
//! queue is the list of all puts and gets in the order in which they took effect. It is stored nowhere:
//! that there is one is what is proved, and each pass knows its own part of it.
//!
//! | what is done | by which pass | what changes | what is answered |
//! |---|---|---|---|
//! | `new` | none | the queue is empty, and nobody waits | the main fiber's pass, with all other numbers in its range |
//! | `pass` for a number | the one whose range begins with it | the numbers up to the given end leave that range | its pass, with the others of these |
//! | `offer_as` | any | where there is room: the element is at the back, and the history has the put | `Ok` |
//! | | | else nothing | the element, and that a history leaves the queue full |
//! | `take_as` | any | where there is an element: the front is gone, and the history has the get | the element |
//! | | | else nothing | `None`, and that a history leaves the queue empty |
//! | `gather` of a pass | any | the pass that is gathered is no more, and what it knew its taker knows | nothing |
//! | `close` | the main fiber's, once it has gathered all | the queue is given up | what was left, from front to back |
//!
//! | at one side of a queue | what changes | what is answered |
//! |---|---|---|
//! | `wait` of a fiber | where it is not listed there: it is the last of the list | nothing |
//! | `unwait` of a fiber | it is listed no more | whether it was |
//! | `has_waiter` | nothing | whether a fiber is listed |
//! | `next_waiter` | the first is listed no more | it, or `None` where nobody is listed |
//!
//! 1. The history is legal: each put found room, each get took the front, and nothing else happened.
//! 2. Each pass's list of its own events is the history's cut to its fiber, and what it has seen is the
//!    beginning of the history. So a fiber's own events stand in its own order.
//! 3. A refusal is told only where such a history leaves the queue full, or empty: one that begins with
//!    all that the pass has seen, and has no other event of its fibers, and none of a number that is no
//!    fiber's. Where the pass is the main fiber's, and has gathered all, this history has no event of
//!    anybody else. Else it binds the pass alone: others may do in it what they never did, and two
//!    refusals may have histories that do not go together.
//! 4. `close` gives the rest of a history whose cuts are the lists of the gathered passes, as they were
//!    when it was called, and which has no event of anybody else. It begins with all that each pass had
//!    seen, so that all puts and gets are told by one history.
//! 5. An element has the stamp of its put. The history is legal with stamps in place of values too, by
//!    the same fibers in the same order: so an element comes out with the stamp that it went in with.
//! 6. Those who wait at a side stand in a ring behind a small lock, each once. That the one listed
//!    longest is next is proved of that ring, and of the queue it is tested, since a contract says
//!    nothing of what is behind a lock. Where nobody waits `unwait` and `next_waiter` take no lock.
//! 7. `new` and `close` alone take memory.
#![tactic(auto)]

mod entry;
mod fiber_queue;
pub mod laws;
mod link;
mod pass_view;
mod queue_pass;
mod ring_rule;
mod side;
mod stage;
mod steps;
mod wait_ring;
mod wait_side;
mod waiters;

pub use fiber_queue::FiberQueue;
pub use queue_pass::QueuePass;
pub use side::Side;
