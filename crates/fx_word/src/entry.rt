//! What one fiber did to the words and learnt of them.
use crate::state_word::EndKind;
use fx_term::{Begin, Outcome};
use std::collections::LinkedList;

/// What the fiber of one number did to the words and learnt of them, the newest first. No value of
/// this type is made.
pub struct Entry {
    pub id: u32,
    /// Who split it off, and what it began with. The main fiber has none.
    pub begin: Option<(u32, Begin)>,
    /// The numbers that it may split off, from here to below `end`.
    pub next: u32,
    pub end: u32,
    /// Whom it split off, and what each began with.
    pub parts: LinkedList<(u32, Begin)>,
    /// Whom it requested.
    pub asked: LinkedList<u32>,
    /// The same, each with the stamp of the request, or with 0 for a request from outside: from before
    /// the request bit is set.
    pub asked_with: LinkedList<(u32, u64)>,
    /// Whether it has seen a request of its own.
    pub seen: bool,
    /// The stamps of its own requests that it loaded.
    pub loaded: LinkedList<u64>,
    /// The number that it stored, to end with it.
    pub stored: Option<u64>,
    /// The stamp that it stored, to end with it.
    pub stored_stamp: Option<u64>,
    /// How it ended.
    pub ended: Option<Outcome>,
    /// Of whom it was told that they have ended, and of what kind their ends are.
    pub told: LinkedList<(u32, EndKind)>,
    /// Of whom it has learnt how they ended.
    pub learnt: LinkedList<(u32, Outcome)>,
    /// Of whom it has learnt with which stamp they ended.
    pub learnt_stamps: LinkedList<(u32, u64)>,
}
