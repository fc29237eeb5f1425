//! Follows the fibers of reports whose runs are known, step by step: no contract says that anything is told.
#![tactic(auto)]

#[cfg(test)]
mod follow;
