//! A fiber as a machine of its own, over any port to the outside.
//!
//! A [`Fiber`] stands inside contexts that it has entered, with a number for each name in scope. The
//! acquire part and the release of a bracket are sealed inside, and so is each clean-up: no poll opens
//! a place there. A step looks at the place and makes exactly one rule, or none where the fiber waits:
//!
//! 1. A fiber that is between two clean-ups begins the next one, or ends as canceled: `finalizer`,
//!    `release`, `unwound`.
//! 2. Contexts are entered down to a leaf or a result, which shows nothing.
//! 3. Where nothing closes the place and the fiber is known to be canceled, or is at `canceled`, its
//!    term is given up for its clean-ups: `cancelled`.
//! 4. Else, where nothing closes the place, the port is asked whether the fiber is requested; a
//!    request that is seen is known from then on: `seen`.
//! 5. Else the table makes the rule of that place:
//!
//! | inside all contexts | the innermost context | rule |
//! |---|---|---|
//! | `pure n`; `raise e`; `canceled`; `cede` | any or none | `pure`; `raise`; `self_request`; `cede` |
//! | `never` | any or none | none: the fiber waits |
//! | `if` of another number than 0; of 0 | any or none | `if_not_zero`; `if_zero` |
//! | `for`; its loop with a turn left; with none | any or none | `for_begins`; `loop_turns`; `loop_ends` |
//! | `mask`; `poll` | any or none | `mask`; `poll` |
//! | `start` | any or none | `start` |
//! | `join`, once that fiber has ended | any or none | `joined` |
//! | `cancel`; then, once that fiber has ended | any or none | `request`; `awaited` |
//! | `first`, once the left fiber has ended; else the right one | any or none | `first_left`; `first_right` |
//! | `offer`, once the queue has room; `take`, once it has an element | any or none | `offered`; `taken` |
//! | one of these before | any or none | none: the fiber waits |
//! | `tryoffer` where the queue has room; where it is full | any or none | `tried_offer`; `refused` |
//! | `trytake` where the queue has an element; where it is empty | any or none | `tried_take`; `found_empty` |
//! | a value | a `let`, or a turn of a loop; a `handle`; none | `let_value`; `handle_value`; `succeeds` |
//! | an error | a `let`, or a turn of a loop; a `handle`; none | `let_error`; `handle_error`; `errs` |
//! | a value or an error | a mask; a poll; an `oncancel` | `masked_ends`; `opened_ends`; `oncancel_ends` |
//! | a value; an error | the acquire part of a bracket | `acquired`; `acquire_fails` |
//! | a value or an error | the use of a bracket; its release | `used`; `released` |
//! | a value or an error of a clean-up | none | `finalizer_ends`; `release_ends` |
//!
//! Each rule is made by one method of its name, in the file of its forms. But `unwinds` makes the three
//! rules `finalizer`, `release` and `unwound`; and a turn of a loop stands in a `let` without a name, so
//! that its end is `let_value` or `let_error`, made by `turn_value` and `turn_error`. `join` makes the
//! rule `joined`, `awaits` the rule `awaited`, and `first` the rules `first_left` and `first_right`;
//! `offer` makes the rule `offered`, `take` the rule `taken`, `try_offer` the rules `tried_offer` and
//! `refused`, and `try_take` the rules `tried_take` and `found_empty`; and `start` is a function beside
//! the machine, since it makes a fiber over a port of its own.
//!
//! The answer of a step is [`Stepped::Gave`] exactly where its rule is `cede`, [`Stepped::Waits`]
//! exactly where it made none, with what the fiber waits for, and [`Stepped::Child`] where it started
//! one. A fiber that waits at an open place looks in each step, so a request is seen there; where
//! something closes the place only what it waits for lets it go on.
//!
//! Each event has a stamp: one more than the fiber's clock, which is the stamp of the event before it, or of the
//! fiber's start. Where the port finds what another did (a request, an end, an element), it gives the stamp of
//! that too, to which the clock is raised first. The port is told the stamp of each put, request, start and end.
//!
//! [`Fiber::burst`] makes rules in one go that need no other fiber: those that show nothing, and those of a
//! bracket. A step makes the next one.
//!
//! A [`Turn`] is a future, of which one poll steps the fiber, with a burst after each step that went on,
//! until one of these comes first:
//!
//! | a step answers | the poll is |
//! |---|---|
//! | it started a fiber | ready, with that fiber |
//! | the fiber has ended | ready |
//! | memory was refused | ready; the fiber stands as after its last step |
//! | it gave way (`cede`) | pending, a yield |
//! | it waits, and waited in the step before, after which it was registered | pending, a wait |
//! | none of these in 64 steps | pending, a yield |
//!
//! Where a step waits for the first time the fiber is registered with what it waits for, and steps once
//! more, so that what came in between is not missed. [`Fiber::source`] tells a wait from a yield.
//!
//! Whether a fiber could step is told without a step too, by the lists that a run left ([`Closed`]).
//!
//! The rules and the runs are those of `fx_model`, and so are the [`laws`] of what follows from them
//! alone, and what is reported of fibers ([`Report`]); who uses fibers finds these here too.
//!
//! What never happens: a row of the table at an open place before a look in that step, or, in a burst,
//! after one since which something was asked; an event that is made and not in the trace; a change where
//! memory runs out or the fiber waits; a call to the depth of a term; a yield without a step; a step after
//! `cede` in the same poll.
#![tactic(auto)]

mod bare;
mod begin;
mod clock;
mod ended;
mod fiber;
mod head;
mod machine;
mod port;
mod queue_use;
mod standing;
mod stepped;
mod turn;
mod turned;

pub use bare::Bare;
pub use begin::main_begin;
pub use ended::Ended;
pub use fiber::Fiber;
pub use fiber::flow::Flow;
pub use fx_model::{Closed, FiberReport, Report, Source, State, laws};
pub use port::Port;
pub use queue_use::QueueUse;
pub use standing::Standing;
pub use stepped::Stepped;
pub use turn::Turn;
pub use turned::Turned;
