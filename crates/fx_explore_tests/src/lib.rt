//! Steps of the fibers of a state, so that they are seen to succeed, which no contract says.
#![tactic(auto)]

#[cfg(test)]
mod queues;
#[cfg(test)]
mod steps;
