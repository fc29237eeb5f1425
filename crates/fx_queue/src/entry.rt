//! What one fiber did to a queue and saw of it.
use fx_term::QueueEvent;
use std::collections::LinkedList;

/// What the fiber of one number did to the queue, in order, and how far it has seen the history. No
/// value of this type is made.
pub struct Entry {
    pub id: u32,
    /// The numbers whose passes it may split off, from here to below `end`.
    pub next: u32,
    pub end: u32,
    /// Whose passes it split off.
    pub parts: LinkedList<u32>,
    /// What each of them began with, in the same order.
    pub handed: LinkedList<Handed>,
    /// Its own events, the oldest first.
    pub acts: LinkedList<QueueEvent>,
    /// The same with the stamps of the puts, its own or of what it took, in place of the values.
    pub stamps: LinkedList<QueueEvent>,
    /// What its starter had seen when it split this pass off.
    pub began: LinkedList<QueueEvent>,
    /// All events up to its latest one, or, where it has none yet, what it began with.
    pub seen: LinkedList<QueueEvent>,
}

/// What a pass was split off with: the number of its fiber, and all that its starter had seen by then.
pub struct Handed {
    pub id: u32,
    pub seen: LinkedList<QueueEvent>,
}
