//! Where in a script the reader stands, but for the names that have slots there.
use crate::queue_decl::QueueDecl;

/// How often the loops round a place run it; how many of the names in scope there, the outermost
/// ones, are bound outside of the fiber that runs it; and the queues, whose names have numbers and no
/// slots.
#[derive(Clone, Copy)]
pub(crate) struct Place<'a> {
    pub(crate) turns: u32,
    pub(crate) foreign: usize,
    pub(crate) queues: &'a [QueueDecl],
}
