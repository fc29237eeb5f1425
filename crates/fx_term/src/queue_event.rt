//! The events of one queue.

/// What a fiber did to one queue.
#[derive(Clone, Copy, PartialEq, Eq, Debug)]
pub enum QueueEvent {
    /// The fiber of this number put this value at the back.
    Put(u32, u64),
    /// That fiber took the front, which had this value.
    Got(u32, u64),
}
