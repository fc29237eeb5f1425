//! The program's library part: what the words after its name ask for, done over any files and streams.
//!
//! 1. `call` finds in the words what is asked of which texts. `workers` reads how many workers a run has,
//!    and `states` from how many states a search goes on. `help` has a page on each word of the program and
//!    on each form, and finds which one is asked for. Other words are answered with those that there are.
//! 2. `files` fetches texts by name.
//! 3. `texts` reads the script and the schedule. A text that is refused has its line, which never
//!    changes, and words for people: `explain` says where and shows the place, `script_words` and
//!    `schedule_words` say what is wrong. A script is told by what is open at the place, `open_groups`, by
//!    the parts that a form has, `parts`, and by the word that may have been meant, `advice`.
//! 4. `perform` checks the script, or replays it and writes its report or its traces, or tells it step by step, or
//!    runs it on threads and writes these. It has words for people about each fiber that is blocked, and `passed` has
//!    those about picks of the schedule that were passed over. Or it searches all runs of the script, and
//!    writes what it has found, or of that the first report that is not expected. `placed` finds where the nodes of
//!    the script stand in its text, for those words and for the steps; `told_text` writes the steps, `stood` knows at
//!    which node each fiber stood last, `so_far` whose puts each queue holds, and `stood_events` what is told of each
//!    event of a replay, for `pictured`, which draws runs. `stood_of_run` tells of each event of a run on threads what was
//!    found of it (`fx_run_events`), and `handles` what a script calls the fibers of both.
//! 5. `stream` is what is written to: a writer, of which contracts know whether it has refused a write.
//! 6. `command` goes through these in that order, gives the status, and says on standard error those
//!    words, or why nothing was printed.
//!
//! [`laws`] says that what a search prints of a run, a replay prints by the schedule beside it, and that an
//! expectation which is met has the report of each run.
//!
//! What is written on standard output is always a prefix of one text, which was whole before the
//! first write. What never happens: a schedule or an expectation that is read before its script is; a byte on standard
//! output where a text cannot be read or memory runs out; a text that is cut short by a stream which
//! has refused nothing; a status that is not in the table of `command`.
#![tactic(auto)]

mod advice;
mod call;
pub mod command;
mod command_fault;
mod excerpt;
mod explain;
pub mod files;
mod handles;
mod held_puts;
mod help;
pub mod laws;
mod open_groups;
mod parts;
mod passed;
mod perform;
mod pictured;
mod placed;
mod position;
mod printable;
mod schedule_words;
mod script_words;
mod so_far;
mod states;
mod stood;
mod stood_events;
mod stood_of_run;
pub mod stream;
mod texts;
mod told_text;
mod workers;
