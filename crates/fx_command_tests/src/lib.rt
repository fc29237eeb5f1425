//! What `fx_command` does over texts in memory: with one that breaks off, with an output that is full, and with
//! scripts at the edges of what a text may hold. What it prints for the words of a call is seen in the transcripts
//! of the program, in `fibers`.
#![tactic(auto)]

#[cfg(test)]
mod command;
