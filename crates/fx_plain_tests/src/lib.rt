//! What `fx_plain` does with whole scripts on one thread: which fiber is the next, what its fibers see of one
//! another, the two texts of a report, and readers and writers that fail. What is written, and that the run
//! is the chosen one, is proved; that these definitions say what is meant is seen here, and what no contract
//! says: that a fault is told only where there was one. `library` is the example of the tour in the docs.
#![tactic(auto)]

#[cfg(test)]
mod full;
#[cfg(test)]
mod library;
#[cfg(test)]
mod plain_port;
#[cfg(test)]
mod plain_world;
#[cfg(test)]
mod text_replay;
#[cfg(test)]
mod write;
