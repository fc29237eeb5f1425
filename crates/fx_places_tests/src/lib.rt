//! Which place each node of a script has.
#![tactic(auto)]

#[cfg(test)]
mod forms;
