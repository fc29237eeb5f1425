//! What a search of `fx_search` meets in small graphs, so that it is seen to succeed, which no contract says.
#![tactic(auto)]

#[cfg(test)]
mod graphs;
#[cfg(test)]
mod numbered;
#[cfg(test)]
mod sets;
#[cfg(test)]
mod sleeping;
