//! Reports that are written by hand.
use fx_model::{FiberReport, Report, State};
use fx_term::{Memory, Stamped};
use std::alloc::Global;

/// A fiber's number, and its trace.
pub type Trace = (u32, &'static [Stamped]);

/// A report of these fibers, which have all ended, with nothing in its queues.
pub fn report_of(alloc: Global, traces: &[Trace]) -> Result<Report, Memory> {
    let mut fibers = Vec::new(alloc);
    for (id, trace) in traces {
        fibers.push(FiberReport {
            id: *id,
            parent: None,
            state: State::Ended,
            trace: Vec::from_slice(alloc, *trace)?,
        })?;
    }
    Ok(Report {
        fibers,
        left: Vec::new(alloc),
        outside: Vec::new(alloc),
        late: 0,
    })
}

/// A trace, each event behind its stamp.
macro_rules! trace {
    ($($stamp:literal => $event:expr),* $(,)?) => {
        &[$(fx_term::Stamped { event: $event, stamp: $stamp }),*]
    };
}

pub(crate) use trace;
