//! Terms that can be put for one another anywhere in a script. A function here does nothing: its contract is
//! the law.
//!
//! `fx_laws` says which terms show the same wherever a fiber comes to them. Here such terms are put for one
//! another where no fiber has come yet: in any part of any form, at as many places as there are. Which
//! reports are lawful is told of each fiber's labels and of nothing else of its term, so two scripts that
//! differ at such places have the same ones.
//!
//! | definitions | what they say |
//! |---|---|
//! | `Filled` | one term is another one with pairs of terms put for one another in it |
//! | `Cover` | what closes a place for certain, by the forms that stand round it |
//! | `InScripts` | two scripts that differ at such places have the same lawful reports |
//! | `Reached` | where a fiber of a script comes to two terms it shows the same and waits for the same |
//! | `Interchange` | two terms show the same everywhere and wait for the same, whatever numbers stand for their names |
//!
//! | laws of | what they say |
//! |---|---|
//! | [`contexts`] | a fiber with the one whole term shows what one with the other does, and waits where that does |
//! | [`scripts`] | two scripts that differ at such places have the same lawful reports |
//! | [`laws`] | which terms can be put for one another |
//! | [`closed`], [`bare`] | which can where they stand at closed places, or where nothing closes their place |
//! | [`regions`] | which of them, where the one enters a mask more |
//! | [`reached`] | what comes to the same where a fiber of a script comes to it, though it enters a mask more |
//! | [`masks`] | which masks, as a whole script, have the same reports |
//! | [`refused`] | which cannot |
#![tactic(auto)]

pub mod bare;
pub mod closed;
pub mod contexts;
pub mod laws;
pub mod masks;
pub mod reached;
pub mod refused;
pub mod regions;
pub mod scripts;
