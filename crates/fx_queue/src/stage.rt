//! The stages of a pass.

/// The stage of a pass. No value of this type is made.
pub enum Stage {
    /// Made, but its queue has no capacity yet.
    Blank,
    Live,
    /// Taken in by another pass.
    Spent,
}
