//! Reports that are written by hand.
use fx_model::{FiberReport, Report, State};
use fx_term::{Item, Memory, Stamped};
use std::alloc::Global;

/// A fiber's number, and its trace.
pub type Trace = (u32, &'static [Stamped]);

/// What is left in a queue: the fiber that put it, as its nth, and its value.
pub type Left = &'static [(u32, u64, u64)];

/// A report of these fibers, which have all ended, with this left in its queues.
pub fn report_of(alloc: Global, traces: &[Trace], queues: &[Left]) -> Result<Report, Memory> {
    let mut fibers = Vec::new(alloc);
    for (id, trace) in traces {
        fibers.push(FiberReport {
            id: *id,
            parent: None,
            state: State::Ended,
            trace: Vec::from_slice(alloc, *trace)?,
        })?;
    }
    let mut left = Vec::new(alloc);
    for queue in queues {
        left.push(items_of(alloc, *queue)?)?;
    }
    Ok(Report {
        fibers,
        left,
        outside: Vec::new(alloc),
        late: 0,
    })
}

/// These elements, with no stamp that says anything.
fn items_of(alloc: Global, left: Left) -> Result<Vec<Item>, Memory> {
    let mut items = Vec::new(alloc);
    for (fiber, nth, value) in left {
        items.push(Item {
            fiber: *fiber,
            nth: *nth,
            value: *value,
            stamp: 0,
        })?;
    }
    Ok(items)
}

/// A trace, each event behind its stamp.
macro_rules! trace {
    ($($stamp:literal => $event:expr),* $(,)?) => {
        &[$(fx_term::Stamped { event: $event, stamp: $stamp }),*]
    };
}

pub(crate) use trace;
