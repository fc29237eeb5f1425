//! What a seat knows.
use crate::entry::Entry;
use std::collections::LinkedList;

/// What a seat knows: the entry of its own fiber, and those of the seats that it took in. No value of
/// this type is made.
pub struct SeatView {
    /// Whether another seat took it in, so that it knows nothing any more.
    pub spent: bool,
    pub own: Entry,
    pub taken: LinkedList<Entry>,
}
