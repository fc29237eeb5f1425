//! The list of all events that `fx_order` makes of a report. That it has each event once, in order, is
//! proved, and so is that causes come first where the stamps are those of a lawful report. Here both are
//! seen on reports that were written by hand; [`first_before_cause`] looks for causes by the events alone,
//! and takes no stamp for granted, so that it can judge the reports of whole runs too.
#![tactic(auto)]

mod causes;
#[cfg(test)]
mod order;
#[cfg(test)]
mod reports;
#[cfg(test)]
mod swapped;

pub use causes::first_before_cause;
