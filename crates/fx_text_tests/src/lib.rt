//! What `fx_text` answers to texts. A contract says that it is what the grammar and the reading say; that
//! these say what is meant is seen here, by worked texts: which scripts and schedules are taken, of which
//! nodes, fibers and queues, and the kind and the byte of the fault of each that is refused.
#![tactic(auto)]

#[cfg(test)]
mod repeated;
#[cfg(test)]
mod schedules;
#[cfg(test)]
mod scripts;
