//! What is told of a put or a get.

/// What a history tells of a put or a get.
#[derive(Clone, Copy, PartialEq, Eq, Debug)]
pub struct AtQueue {
    /// How many elements the queue holds after it.
    pub held: usize,
    /// Of a get, the place in the list of the put whose element it took; none of a put.
    pub took: Option<usize>,
}
