//! Reports of a script's fibers as texts, and what the text of a script is answered with, whatever
//! made the run: nothing here has a world, a port or a fiber.
//!
//! A report has two texts, a line each:
//!
//! | text | a line |
//! |---|---|
//! | report | a fiber, with how it is at the end; then a queue, with what is left in it |
//! | traces | an event of a fiber, with its stamp; fiber by fiber |
//!
//! Beside them there is a line for people for each blocked fiber, with where it stands and what it waits for
//! ([`Blocked`]). A report and its blocked fibers are what there is once a run has halted ([`Halt`]).
//!
//! The text of a script has one answer, a status and a printed text, or a fault and none:
//!
//! | the text | status | what is printed |
//! |---|---|---|
//! | is a script, and all fibers ended | [`ENDED`] | the report |
//! | is a script, and a fiber waits for good | [`BLOCKED`] | the report |
//! | is refused | [`REFUSED`] | one line, with the fault's kind and byte |
//!
//! Its rules:
//!
//! 1. What the two texts say of a report is all that it has: they are written of a report that is
//!    writable. That each lawful one is, is a law, in [`laws`].
//! 2. A text is made whole before its first byte is written, so at want of memory nothing is.
//! 3. What was written is the text, or a prefix of it where the writer fails.
//! 4. Of a text that may be too long one byte more is read than it may have, and no more.
//! 5. Which reports a script has is for whoever runs it to say: what is proved here of answers holds of
//!    any such relation, as "the report of this replay" or "some lawful report" ([`Answer`]).
//!
//! What never happens: a byte that is of no text; a number of a status or a limit that stands in two
//! places; a read after the end that was wanted.
#![tactic(auto)]

mod answer;
mod answer_fault;
mod blocked;
mod halt;
mod input;
pub mod laws;
mod lines;
mod out_fault;
mod output;
mod refusal;
mod state;
mod status;
mod wait;
mod waits;
mod write;

pub use answer::Answer;
pub use answer_fault::AnswerFault;
pub use blocked::Blocked;
pub use halt::Halt;
pub use input::{MOST_OF_SCRIPT, read_text};
pub use lines::push_event;
pub use out_fault::OutFault;
pub use output::write_text;
pub use refusal::format_refusal;
pub use state::state_at_halt;
pub use status::{BLOCKED, ENDED, FAULT, OTHER_WORDS, REFUSED, UNREADABLE, status_after};
pub use wait::Wait;
pub use waits::format_waits;
pub use write::{format_report, format_traces, write_report, write_trace};
