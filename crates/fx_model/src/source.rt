//! What a fiber waits for.

/// What a fiber waits for.
#[derive(Clone, Copy, PartialEq, Eq, Debug)]
pub enum Source {
    /// Nothing that ever comes.
    Nothing,
    /// The outcome of the fiber of this number.
    Outcome(u32),
    /// That of either of these two.
    Either(u32, u32),
    /// Room in this queue.
    Room(u8),
    /// An element of this queue.
    Element(u8),
}
