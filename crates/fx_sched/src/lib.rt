//! Fibers that move between the threads of workers.
//!
//! A fiber is in one place at a time, and each place gives it to one worker alone:
//!
//! | it is | where |
//! |---|---|
//! | able to go on | in a worker's deque ([`Hand`]); before the workers begin in that of the first |
//! | in its turn | in the hand of the worker that took it |
//! | waiting, or ended | in its bay of the [`Lot`], where it rests ([`Resting`]): one that has ended as what is told of it |
//!
//! A worker does this again and again ([`work`]):
//!
//! 1. It takes a fiber from the front of its own deque, else from another's that can spare one.
//! 2. The gate is asked, and what it names is requested from outside; then the fiber has its turn. No
//!    lock is held meanwhile.
//! 3. After its turn the fiber is pushed where it gave way; laid down where it has ended; parked where it
//!    waits, but pushed where a wake was left for it since it was last taken. A child is pushed before
//!    its starter. Then those that were noted to be woken are taken out and pushed.
//! 4. One that gave way while its worker's deque is empty would come next, before those that are woken. So
//!    it stays in the worker's hand, and goes on with 2 once they are pushed.
//!
//! | a worker finds | it |
//! |---|---|
//! | a fiber | goes on with 2 |
//! | none, while another has one in hand | looks again for a while, and then sleeps until it is called |
//! | none, and no other has one | is done: no fiber is able to go on |
//! | no memory | ends, and gives back the fibers that it has in hand |
//!
//! A worker can spare what lies in its deque where that is more than the few to which it comes soon, or where
//! none of its fibers has waited for long. Then it calls one that sleeps. No call is missed: a worker counts as
//! one that sleeps before it looks for the last time, and each call changes a word that it read before that, and
//! on which it sleeps. Who has slept twice and was not called takes also what lies with a worker that has made no
//! turn in between.
//!
//! What is known of a fiber wherever it comes from is what its type says: its run, and that its port
//! agrees with what it did. A fiber is never copied, since its type has no copies.
#![tactic(auto)]

mod at;
mod deques;
mod drops_wakes;
mod gate;
mod lot;
mod resting;
mod rounds;
mod threads;
mod turns;
mod worker;

pub use at::At;
pub use deques::{Hand, Owner, Tasks, Work};
pub use drops_wakes::DropsWakes;
pub use gate::{Free, Gate};
pub use lot::Lot;
pub use resting::Resting;
pub use rounds::{RoundEnd, round};
pub use turns::{gated_turn, leave, solo};
pub use worker::{WorkerEnd, work};
