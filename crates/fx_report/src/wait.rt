//! What a fiber waits for.

use fx_model::Source;

/// A fiber, and what it waits for.
#[derive(Clone, Copy, PartialEq, Eq, Debug)]
pub struct Wait {
    pub fiber: u32,
    pub source: Source,
}
