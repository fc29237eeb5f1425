//! All fibers of a script on one thread: what the whole machine does, which of its runs a schedule
//! chooses, and what is reported of it. [`replay`] makes that run and gives its report, and
//! [`replay_text`] goes from a script's bytes to the report's. The texts are those of the crate of reports.
//!
//! The whole machine is
//!
//! | part | what it is |
//! |---|---|
//! | fibers | by number: none where that one has not started; else who started it, its origin, and how far its run is |
//! | requests | by number: whether the fiber's cancellation was requested, and whether from outside |
//! | queues | by number: a list of elements, from front to back |
//! | stamps | those of all events, and of what the next ones stand on |
//!
//! Its rules:
//!
//! 1. At first the main fiber, number 0, has started; nobody is requested, and the queues are empty.
//! 2. In each step one fiber makes one step of its own, or one fiber is requested from outside.
//! 3. A put needs room and goes to the back; a get takes the front. A refusal needs a full queue, and
//!    an empty take an empty one. What learns of an outcome needs a fiber that has ended so. A request
//!    is seen only where there is one.
//! 4. Where a fiber looks before it steps, a request is seen before any other step.
//! 5. A start gives the child the next number of its fiber, and the numbers after that which the child
//!    can use. A fiber may be requested from outside at any time, also before it starts or after it ended.
//!
//! A schedule is a list of picks. It chooses one run:
//!
//! 1. `Step(f)` makes one step of fiber f, and is passed over where that fiber cannot step.
//! 2. `Cancel(f)` requests fiber f from outside, and is passed over where the script has no such number.
//! 3. After the last pick the fiber with the least number that can step makes one step, again and
//!    again, until none can.
//! 4. Where both fibers of a `first` have ended, it learns of the left one.
//!
//! The world of these fibers keeps a class for each, so that none is asked in vain again and again:
//!
//! | what happens | whose class it changes |
//! |---|---|
//! | a fiber starts | its own: it is able |
//! | a fiber answers that it waits | its own: it waits for that |
//! | a fiber is requested | its own, if it waits: it is able, since it may see the request |
//! | a fiber ends | its own: it is over; and those that waited for its end are able |
//! | an element is put or taken | nobody's |
//!
//! Who waits at a queue is found by the queue: who waits for room in it may step while it has room, and
//! who waits for an element of it while it has one. With those who are able these are the ready ones, and
//! who is not ready cannot step. Who is able may still wait: it is asked once, and then noted so.
//! One that is woken at a queue mostly waits there again soon, so it is moved only once another one is.
//!
//! For the stamps it keeps the greatest one of the requests for each fiber, that of each end, and with each
//! element that of its put. A request from outside has no stamp: a fiber that sees it and none of another
//! fiber's goes by 0.
//!
//! A fiber that has ended gives back all memory but that of its trace, and the next one that starts may
//! have it.
//!
//! The report of that run has each fiber that started, ascending by number, with its parent, whether it
//! has ended, and its trace with the stamps; what is left in each queue; and which numbers were requested from outside.
//! Beside it [`replay_to_halt`] says what each fiber waits for that has not ended, and how many picks were
//! passed over, with the first of them and why ([`PassedOver`]). [`tell_run`] tells that run step by step.
//!
//! What never happens: two fibers of one number; a start that finds its number taken, or no room for
//! the child; an event after its fiber's end; an element that is taken twice, or by nobody and is gone;
//! a second report of the same picks; steps of fibers without end. The laws are in [`laws`], and in the
//! laws of reports, ranges, puts and waits of `fx_model`.
#![tactic(auto)]

mod chosen_run;
mod class;
mod class_sets;
mod classes;
pub mod laws;
mod number_set;
mod number_sets;
mod passed;
mod plain_machine;
mod plain_port;
mod plain_queue;
mod plain_world;
mod put_counts;
mod started;
mod text_replay;
mod told;
mod told_run;
mod waiter_blocks;
mod woken_classes;

pub use chosen_run::{Replayed, replay, replay_to_halt};
pub use fx_report::{
    AnswerFault as PlainFault, BLOCKED, ENDED, MOST_OF_SCRIPT, OutFault, REFUSED, Wait,
    format_refusal, format_waits, read_text, status_after, write_report, write_text, write_trace,
};
pub use passed::{PassedOver, PassedPick, Why};
pub use plain_port::PlainPort;
pub use plain_world::PlainWorld;
pub use text_replay::replay_text;
pub use told::{MadeStep, Told};
pub use told_run::tell_run;
