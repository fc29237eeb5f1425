//! The counts and the puts taken that `fx_counts` tells of reports that were written by hand, and the orders of their events that it
//! finds. What is told wherever something is told, and where that is, is proved; here it is seen. That an order is found where
//! there is one is not proved: the search gives up after a while.
#![tactic(auto)]

#[cfg(test)]
mod counts;
#[cfg(test)]
mod orders;
#[cfg(test)]
mod reports;
