//! What `fx_term` answers to lists of nodes that are made by hand: which are a code, how many fiber numbers
//! its nodes need, and the first fault of each other list. That a code is one well-scoped term, and a fault
//! the first one, is proved; that these definitions say what is meant is seen here.
#![tactic(auto)]

#[cfg(test)]
mod code;
#[cfg(test)]
mod registers;
