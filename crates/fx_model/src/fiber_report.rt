//! What is reported of one fiber.

use fx_term::Stamped;
use std::marker::Model;

/// How a fiber is at the end of a run.
#[derive(Clone, Copy, PartialEq, Eq, Debug)]
pub enum State {
    /// It has ended.
    Ended,
    /// It waits for what does not come.
    Blocked,
}

impl State {
    ghost use Rattle.std.specs.Prelude.{◌≡◌};
    ghost use Rattle.fx_model.specs.FiberReport.{is_ended};

    /// Whether the fiber has ended.
    pub(crate) fn has_ended(self) -> bool
        ensures { result ≡ is_ended self }
    {
        match self {
            State::Ended => true,
            State::Blocked => false,
        }
    }
}

/// What is reported of a fiber that has started: its number, the fiber that started it, how it is at
/// the end, and its trace. The main fiber, number 0, was started by none.
#[derive(Drop)]
pub struct FiberReport {
    pub id: u32,
    pub parent: Option<u32>,
    pub state: State,
    pub trace: Vec<Stamped>,
}

impl Model for FiberReport {
    ghost use Rattle.fx_model.specs.FiberReport.{is_ended};
    ghost use Rattle.fx_model.specs.Report.{FiberReportView};
    ghost use Rattle.fx_term.specs.Stamped.{events_in, stamps_in};

    ghost Value = { FiberReportView };

    ghost view = { λ f. record {
      id = f.id;
      parent = f.parent;
      has_ended = is_ended f.state;
      trace = events_in f.trace.items;
      stamps = stamps_in f.trace.items;
    } };
}
