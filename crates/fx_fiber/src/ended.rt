//! What is kept of a fiber that has ended.

use fx_term::{Outcome, Stamped};

/// What is kept of a fiber that has ended, beside its port: its number, its trace, how it ended, and what it had counted
/// by then. All other memory is given back, so that the next fiber to start may have it.
#[derive(Drop)]
pub struct Ended {
    pub(crate) id: u32,
    pub(crate) trace: Vec<Stamped>,
    pub(crate) outcome: Outcome,
    pub(crate) counted: Counted,
}

/// What a fiber counts beside its term, which its run leads to.
#[derive(Clone, Copy)]
pub(crate) struct Counted {
    pub masks: u64,
    pub acquired: u64,
    pub next: u32,
    pub end: u32,
    pub known: bool,
}

impl Ended {
    ghost use Rattle.std.specs.Prelude.{◌≡◌};
    ghost use Rattle.fx_term.specs.Stamped.{events_in, stamps_in};
    ghost use Rattle.fx_fiber.specs.Ended.{id_of, trace_of, stamps_of};

    /// The fiber's number.
    pub fn id(&self) -> u32
        ensures { result ≡ id_of self.now }
    {
        self.id
    }

    /// The events with their stamps, the first one first.
    pub fn trace(&self) -> &[Stamped]
        ensures events { events_in result.now ≡ trace_of self.now }
        ensures stamps { stamps_in result.now ≡ stamps_of self.now }
    {
        &self.trace
    }
}
