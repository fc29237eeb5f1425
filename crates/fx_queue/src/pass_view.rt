//! What a pass knows.
use crate::entry::Entry;
use crate::stage::Stage;
use std::collections::LinkedList;

/// What a pass knows: the entry of its own fiber, and those of the passes that it took in. No value
/// of this type is made.
pub struct PassView {
    pub stage: Stage,
    pub cap: usize,
    /// How many fibers the queue is for: each has a lower number.
    pub fibers: u32,
    pub own: Entry,
    pub taken: LinkedList<Entry>,
}
