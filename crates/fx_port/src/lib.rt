//! The port of a fiber on threads, over words for requests and outcomes, and rings for queues.
//!
//! A port is what its fiber has of the outside: a seat of the words, a pass of each queue, and a mark for
//! each number that was requested from outside through it. Who holds it acts for that fiber, on whatever
//! thread, and borrows what all fibers share. It grows with the queues, and by a bit with each number below
//! the greatest that may be requested from outside.
//! What a worker lends to the ports of its fibers are notes: the numbers of the fibers that are to be woken,
//! each once.
//!
//! | what is done | at the words | at a queue | whom it wakes |
//! |---|---|---|---|
//! | `look`, where it finds the request | the own state word is read | | |
//! | `request` of a fiber that there is | its request bit is set | | that fiber |
//! | `peek`, where that fiber has ended | its two words are read | | |
//! | `offer`, where there is room | | the element is put | who was listed longest for an element |
//! | `take`, where there is an element | | the front is taken | who was listed longest for room |
//! | `start` | the seat is split | each pass is split | |
//! | `finish` | the own words are set | | each fiber whose registered source names this one |
//! | `outside` of a fiber that there is | its request bit is set | | that fiber |
//! | `wait_on` | | the fiber is listed at that side, or in the ring of those that wait for that outcome | |
//! | a call that lets a waiting fiber go on | | it is listed no more | the next one, where it was not and does without that element or room |
//!
//! 1. A port agrees with the deeds of its fiber exactly, both ways: its entry of the words says what the
//!    fiber started, requested, saw, found and told, but for what was requested from outside; and each pass
//!    has the fiber's puts and gets there, in order, and the fibers that it started, in order.
//! 2. Behind each refusal stands a history: it is legal, begins with what the fiber had seen by then, has
//!    the fiber's own events before the refusal and no later one, and leaves the queue full, or empty. This
//!    stays true as the fiber goes on.
//! 3. A number is noted from outside only where it may be named, which is a fact of the port's type.
//! 4. No mark of a fiber that is to be woken is lost: it stays till its number is taken out, and none is
//!    taken out that was not marked. That the right fibers are marked no clause says, since who waits
//!    stands behind locks.
//! 5. The port of a child has the range and the beginning that it is given, and has done nothing.
//! 6. Of the calls of a port `start` alone takes memory, and has all of it before it changes anything.
//! 7. At the end of a run ports are taken apart, and the seat and the passes of one fiber take those of the
//!    others in, one after the other. Then the words and the queues can be given up.
#![tactic(auto)]

mod close;
mod counted_pass;
mod gathering;
mod marks;
mod noted;
mod notes;
mod open;
mod outcome_rings;
mod own;
mod passes;
mod run_brand;
pub mod sends;
mod sources;
mod thread_port;
mod waiting;

pub use close::close_queues;
pub use gathering::gather;
pub use marks::Marks;
pub use noted::Noted;
pub use notes::Notes;
pub use open::open_queues;
pub use passes::Passes;
pub use run_brand::RunBrand;
pub use sources::Sources;
pub use thread_port::ThreadPort;
