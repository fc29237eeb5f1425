//! Finds what caused events of reports whose runs are known: no contract says that anything is found.
#![tactic(auto)]

#[cfg(test)]
mod causes;
