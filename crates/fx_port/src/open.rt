//! Opens the queues of a run.
ghost use Rattle.std.specs.Prelude.{◌≡◌, ◌<◌, ◌≤◌, ℕ, map, slice_get, Some, IfOk};
ghost use Rattle.fx_queue.specs.Queues.{QueueId};
ghost use Rattle.fx_port.specs.Rows.{AreFirst};

use crate::counted_pass::CountedPass;
use crate::passes::Passes;
use fx_queue::FiberQueue;
use fx_term::Memory;
use std::alloc::Global;

/// Queues of these capacities for so many fibers, and the main fiber's passes of them.
pub fn open_queues(
    alloc: Global,
    capacities: &[u32],
    fibers: u32,
) -> Result<(Vec<FiberQueue>, Passes), Memory>
    requires capacities { (q cap : ℕ) → slice_get capacities.now q ≡ Some cap → (0 < cap) × (cap ≤ 1024) }
    requires fibers { (0 < fibers) × (fibers ≤ 4096) }
    ensures capacities { IfOk result
        (λ opened. map (λ (i : QueueId). i.cap) opened.0.items ≡ capacities.now) }
    ensures first { IfOk result (λ opened. AreFirst fibers opened.0.items opened.1) }
{
    let mut queues = Vec::new(alloc);
    let mut row = Vec::new(alloc);
    for &capacity in capacities {
        let (queue, pass) = FiberQueue::new(alloc, capacity, fibers)?;
        queues.push(queue)?;
        row.push(CountedPass::new(pass))?;
    }
    Ok((queues, Passes::of(row)))
}
