//! Laws of a fiber and of the one that starts it: those of Cats Effect's GenSpawnLaws that this language
//! can say with terms that are given.
//!
//! They speak of every lawful report of a script, and each report that a replay or a run on threads
//! answers is lawful: so they hold under each schedule, of each number of workers and of each
//! interleaving, so long as nobody is requested from outside. Those of races of which one side never wins
//! speak of the reports whose events stand in one order, causes first, as these do; and what `cede` does is
//! said of a fiber's step. A function here does nothing: its contract is the law.
//!
//! | laws of | what they say |
//! |---|---|
//! | [`joining`] | a fiber that is joined is told as it ended, and one that waits for good is never told |
//! | [`canceling`] | a fiber that is canceled ends, whatever masks its starter has, and one that is not holds nobody up; who cancels waits for the end |
//! | [`racing`] | a race of which one side never wins comes to what the other side comes to, and one that nobody wins waits inside a mask |
//! | [`ceding`] | `cede` ends a turn, and nothing else tells it from `(pure 0)` |
#![tactic(auto)]

pub mod canceling;
pub mod ceding;
pub mod joining;
pub mod racing;
