//! An event of a report, and where it stands there.
use fx_term::Event;

/// An event of a report: the number of the fiber that showed it, its place in that fiber's trace,
/// counted from 0, and its stamp.
#[derive(Clone, Copy, PartialEq, Eq, Debug)]
pub struct Occurrence {
    pub fiber: u32,
    pub place: usize,
    pub event: Event,
    pub stamp: u64,
}
