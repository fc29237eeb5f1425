//! Laws of cancellation in the form that Cats Effect gives them: two terms of which nobody can tell one
//! from the other. A function here does nothing: its contract is the law.
//!
//! The definitions stand in the files of these names in `specs/`. Two terms are compared by what they show, or by what
//! others see of them:
//!
//! | definitions | what they say |
//! |---|---|
//! | `Everywhere` | two terms show the same wherever a fiber comes to them, in its term or in a clean-up, and whatever it has done before |
//! | `ScopedPlaces` | they do so where the clean-ups round them use each name as what it is, as those of a script's fibers do |
//! | `Others` | others see the same of two fibers: what a fiber notes of its own cancellation and of its resources is left out |
//! | `WithoutTurns` | a term, and a fiber, with `(pure 0)` for each `(cede)` |
//!
//! | laws of | what they say |
//! |---|---|
//! | [`never`], [`cancellation`] | what comes after `never` and `canceled` |
//! | [`forcing`], [`binding`] | what is forced after a term, and what takes its value |
//! | [`monads`] | values and errors that come at once |
//! | [`finalizers`], [`brackets`] | which forms of finalizers are the same, and what a bracket is |
//! | [`cases`] | what a bracket with a release for each outcome is |
//! | [`everywhere`] | what holds everywhere holds of whole fibers, and to which places these come |
//! | [`apart`] | terms that can be told apart |
#![tactic(auto)]

pub mod apart;
pub mod binding;
pub mod brackets;
pub mod cancellation;
pub mod cases;
pub mod everywhere;
pub mod finalizers;
pub mod forcing;
pub mod monads;
pub mod never;
