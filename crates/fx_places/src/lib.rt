//! Where the forms of a script stand in its text.
//!
//! A script's code has nodes, and each is made of one form of the text: most forms make one node, those
//! that are short for others make several. Nodes are made in the order in which forms end, so one pass over
//! the text finds the form of each:
//!
//! 1. At each `(` what it opens is known by what is open round it: a form at the top, the form of a term,
//!    what is done after an outcome, the list of resources of a `using`, or one of these. Of the form of a
//!    term the word and the place are kept while it is open.
//! 2. At its `)` a form makes its nodes; the first part of a `forcer` is followed by two nodes of that. All
//!    other groups make none.
//! 3. Each node is compared with the code: it is one that this form makes.
//! 4. At the end there are as many places as nodes. A text that gives other nodes is answered as unfit.
//!
//! The text is one that the code was read from. Contracts do not say that each node has the place of the
//! very form that it was made of, but that there is a form with its word, that it makes such nodes, and
//! which line and column that is. What is left is tested.
#![tactic(auto)]

mod form;
mod group;
mod handle;
pub mod laws;
mod makes;
mod place;
mod position;
mod walk;
mod word;

pub use form::Form;
pub use handle::handle_of;
pub use place::{FormPlace, PlaceFault, places, positions};
