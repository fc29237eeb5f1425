//! Where a form stands in its text.

/// Where a form stands in its text, for people: its line, and its column there, each from 1.
#[derive(Clone, Copy, PartialEq, Eq, Debug)]
pub struct Position {
    pub line: u32,
    pub column: u32,
}
