//! Runs a script's fibers on threads, and tells what the run came to when it has ended.
//!
//! Nobody sees an order in which the fibers of several threads step. What is known at the end is what
//! each fiber knows of itself, and what closing the words and the queues tells:
//!
//! | who tells | what |
//! |---|---|
//! | a fiber that was parted from its port | its trace is that of a run of its code, which leads to where it is |
//! | its port | what it did and learnt in that run is what the words and the queues know of it |
//! | the words, closed by a seat that took in all others | who saw a request was requested; what was learnt of an end is how that fiber ended |
//! | | each fiber but the main one was started by one fiber, and began as that one says |
//! | a queue, closed by a pass that took in all others | one legal history has just the events that the passes have; what is left is its rest |
//! | the report | no fiber is lost, and none can step |
//!
//! That these together make a lawful report, whoever the others are and in whatever order they stepped,
//! are the [`laws`]:
//!
//! | laws of | what they say |
//! |---|---|
//! | [`laws::ports`] | each call of a port keeps the agreement of what is known of its fiber, stamps too, with what the fiber did |
//! | [`laws::gathering`] | seats and passes that took in those of all fibers given can be closed, where no fiber is lost |
//! | [`laws::reports`] | the report of a run that has ended so is lawful, and keeps what is promised |
//!
//! Once no fiber can step any more, the fibers are parted from their ports, ascending, and what each port
//! had is taken in by what the main fiber's had, one after the other. With that the words and the queues
//! are closed, and the report is answered. Where a trace of it tells that a queue was found full, or
//! empty, there was a moment at which it was: a legal history that leaves it so begins with what the
//! fiber had seen by then, and has just the fiber's own puts and gets before that refusal.
//!
//! [`report`] tests the last line and answers that report, or why there is none. It lays what the traces
//! tell down by fiber number, in one pass over them:
//!
//! | what is told | of whom |
//! |---|---|
//! | a fiber was given | itself |
//! | it was started, and by whom first | the one that the start names; past the numbers of the script the least such number is kept |
//! | it is requested | the one that the request names, and each number that was requested from outside |
//! | how it ended | itself |
//!
//! A fiber is lost where it was not given, and is the main one or was started; the least that is lost is
//! told first ([`test_for_lost`] is that test alone). Then the least that could still step by these lists
//! and by how many elements are left. Else the report is that of what was given.
//!
//! Before that the fibers run in rounds (`run_rounds`). The workers of a round are done when no fiber is
//! able to go on. Then the run sweeps: each waiting fiber that can step, by what all fibers tell, is able
//! again in the next round, and counts as late. Where the sweep finds none the run has ended. Where each
//! fiber is woken that is to be, no sweep finds one.
//!
//! | what a sweep knows | from |
//! |---|---|
//! | the capacities of the queues | the script |
//! | how many elements are left in a queue | all traces: their puts less their gots |
//! | how a fiber ended, and who is requested | the traces as above, and the marks of what each port noted from outside |
#![tactic(auto)]

mod closing;
mod flows;
mod gathered;
pub mod laws;
mod ledger;
mod lost;
mod queue_lengths;
mod rounds;
mod run_fault;
mod sweep;
mod tally;
mod waits;
mod whole_report;
mod whole_run;

pub use lost::test_for_lost;
pub use run_fault::RunFault;
pub use whole_report::report;
pub use whole_run::{MOST_WORKERS, run, run_to_halt};
