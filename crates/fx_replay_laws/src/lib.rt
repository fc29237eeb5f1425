//! Laws of replays: what a schedule tells of two scripts that differ in a term, and what it does not. A function
//! here does nothing: its contract is the law.
//!
//! A schedule is finer than the set of a script's reports: its picks count steps, those that show nothing too. So
//! of two terms that can be put for one another in every script, with the same reports, the one may have another
//! report under the same schedule.
//!
//! | laws of | what they say |
//! |---|---|
//! | [`turns`] | no schedule tells `(cede)` from `(pure 0)`: the turn that a `cede` ends is none of its steps |
//! | [`apart`] | which pairs a schedule tells apart |
#![tactic(auto)]

pub mod apart;
pub mod turns;
