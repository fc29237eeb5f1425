//! An element of a queue.

/// An element of a queue: the fiber that put it, as its nth (from 0) into that queue, its value, and the
/// stamp of its put.
#[derive(Clone, Copy, PartialEq, Eq, Debug)]
pub struct Item {
    pub fiber: u32,
    pub nth: u64,
    pub value: u64,
    pub stamp: u64,
}
