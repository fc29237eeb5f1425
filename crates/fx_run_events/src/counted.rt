//! What the queues of a run went through, where an order of its events is found that tells it.
ghost use Rattle.std.specs.Prelude.{◌≡◌, map, IfOk};
ghost use Rattle.fx_text.specs.View.{meaning};
ghost use Rattle.fx_text.specs.declared.queue_decl.QueueDecl.{QueueDecl};
ghost use Rattle.fx_report.specs.Script.{script_of};
ghost use Rattle.fx_run_events.specs.Found.{AreCountedOrNone};

use crate::stands::are_few;
use fx_counts::{AtQueue, counts, order_by_queues};
use fx_model::Report;
use fx_order::{Occurrence, order_by_stamp};
use fx_term::Memory;
use fx_text::{QueueDecl, Script};
use std::alloc::{AllocError, Global};

/// A list of the events of a run, and what was found of each at its queue.
#[derive(Drop)]
pub struct Counted {
    pub list: Vec<Occurrence>,
    pub counts: Vec<Option<AtQueue>>,
}

/// How many elements each queue can hold.
fn capacities(alloc: Global, queues: &[QueueDecl]) -> Result<Vec<u32>, AllocError>
    ensures { IfOk result (λ caps. caps.items ≡ map (λ (q : QueueDecl). q.cap) queues.now) }
{
    let mut caps = Vec::new(alloc);
    for queue in queues {
        caps.push(queue.cap)?;
    }
    Ok(caps)
}

/// What the queues of a report held after its events, and which put each get took an element of, where an order of these is
/// found that tells it. A report with more events than a picture can have is not gone through.
pub fn counts_told(alloc: Global, script: &Script, report: &Report) -> Result<Counted, Memory>
    ensures { IfOk result (λ told. AreCountedOrNone (script_of (meaning script.now)).capacities report.now
        told.list.items told.counts.items) }
{
    if !are_few(&report.fibers) {
        return Ok(Counted {
            list: Vec::new(alloc),
            counts: Vec::new(alloc),
        });
    }
    let capacities = capacities(alloc, &script.queues)?;
    let by_stamp = order_by_stamp(alloc, report)?;
    let list = order_by_queues(alloc, &capacities, report, by_stamp)?;
    let counts = counts(alloc, &capacities, report, &list)?;
    Ok(Counted { list, counts })
}
