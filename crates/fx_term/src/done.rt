//! How a part of a term finished.

/// The result of a part of a term: the value that it gave, or the error that it raised.
#[derive(Clone, Copy, PartialEq, Eq, Debug)]
pub enum Done {
    Val(u64),
    Err(u64),
}
