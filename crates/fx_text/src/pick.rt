//! The picks of a schedule.

/// One entry of a schedule.
#[derive(Clone, Copy, PartialEq, Eq, Debug)]
pub enum Pick {
    /// The fiber of this number makes one step.
    Step(u32),
    /// That fiber is requested from outside.
    Cancel(u32),
}
