//! What is found of a script's runs in which nobody is requested from outside, or nobody but one fiber, the
//! target: each report that some run has, as far as it is printed without its traces, with a schedule under
//! which a replay has it.
//!
//! Its rules:
//!
//! 1. A search makes all steps. Where it has found a report without a schedule, a second one makes the steps that a
//!    schedule makes, and the findings of that one come first.
//! 2. Each state at rest that was met is told once, in the order of the search: those first in which a fiber
//!    is blocked. What is told of it has a row of numbers, and it is compared with what was told before only
//!    where that row is known: first with the finding whose row that is.
//! 3. A schedule is looked for by going back from a state to the start, and it is followed before it is told:
//!    it leads where it says. Where a fiber learns of the right one of two that have both ended, which no schedule makes,
//!    the end of the left one is put behind that step. The last picks are left out, as far as their steps are made without
//!    them. The picks along what its way shares with the last one are not looked for again.
//! 4. What was found has a text. A finding is the line of its schedule, its report in the lines of a replay,
//!    and an empty line; then one line says how many there are, from how many states the search went on, and
//!    whether these are all. What stands after the first word in the line of a schedule is the text of a
//!    schedule ([`laws`]).
//! 5. What was found has a status. A report in which a fiber waits for good counts for most, however far the
//!    search came; where there is none, [`INCOMPLETE`] says that there may be other reports.
//!
//! What never happens: a report of no run; a schedule under which a replay has another report; a search that
//! says that these are all where there are more.
#![tactic(auto)]

mod compared;
mod expected;
mod explored;
mod exploring;
mod finding;
mod found;
pub mod laws;
mod lines;
mod resting;
mod schedules;
mod states;
mod status;
mod telling;
mod told_row;
mod trail;
mod write;

pub use compared::{Compared, UNEXPECTED, compare};
pub use explored::{Explored, Finding, HaltedFiber, Told};
pub use exploring::explore;
pub use fx_search::{Nobody, Progress, SoFar};
pub use status::{INCOMPLETE, explored_status};
pub use write::format_explored;
