//! Counts the elements of queues along a list of events, and pairs their gets with their puts.
ghost use Rattle.std.specs.Prelude.{◌≡◌, ℕ, IfOk, Some, length, slice_get, is_some, option_map};
ghost use Rattle.fx_term.specs.Element.{elements_of};
ghost use Rattle.fx_term.specs.Queue.{queue_event};
ghost use Rattle.fx_model.specs.Report.{left_in};
ghost use Rattle.fx_order.specs.declared.occurrence.Occurrence.{Occurrence};
ghost use Rattle.fx_counts.specs.Counted.{AreCounted};
ghost use Rattle.fx_counts.specs.SoFar.{IsReplay, told_then};

use crate::at_queue::AtQueue;
use crate::queue_so_far::QueueSoFar;
use fx_model::Report;
use fx_order::Occurrence;
use fx_term::{Event, Item, Memory};
use std::alloc::Global;

/// What the report has left in the queue of that number.
pub(crate) fn left_of(report: &Report, queue: usize) -> &[Item]
    ensures { elements_of result.now ≡ left_in report.now queue }
{
    match report.left.get(queue) {
        Some(left) => left,
        None => &[],
    }
}

/// What is told of each event of the list by what the list has of the queue of that number, if that is a legal history with this
/// rest.
pub(crate) fn replay(
    alloc: Global,
    capacity: u32,
    queue: usize,
    list: &[Occurrence],
    left: &[Item],
) -> Result<Option<Vec<AtQueue>>, Memory>
    ensures { IfOk result (λ told. IsReplay capacity queue list.now (elements_of left.now)
        (option_map (λ it. it.items) told)) }
{
    let mut now = QueueSoFar::new(alloc);
    let mut told = Vec::new(alloc);
    for (place, it) in list.iter().enumerate() {
        let took = now.taken_by(queue, it);
        if !now.after(capacity, queue, place, it)? {
            return Ok(None);
        }
        let held = now.held();
        told.push(AtQueue { held, took })?;
    }
    Ok(now.holds(left).then_some(told))
}

/// Whether the event is a put into that queue or a get from there.
fn is_on(event: Event, queue: usize) -> bool
    ensures { (f : ℕ) → result ≡ is_some (queue_event queue f event) }
{
    match event {
        Event::Put(it, _) | Event::Got(it, _) => usize::from(it) == queue,
        _ => false,
    }
}

/// Writes what is told of each event of the list by that queue's history over what is told of its own events.
fn write_counts(counts: &mut [Option<AtQueue>], queue: usize, list: &[Occurrence], told: &[AtQueue])
    requires counts_long { length counts.old ≡ length list.now }
    requires told_long { length told.now ≡ length list.now }
    ensures { (k : ℕ) (x : Occurrence) → slice_get list.now k ≡ Some x → slice_get counts.new k
        ≡ told_then (queue_event queue x.fiber x.event) (slice_get told.now k) (slice_get counts.old k) }
{
    for (k, it) in list.iter().enumerate() {
        if is_on(it.event, queue) {
            counts[k] = Some(told[k]);
        }
    }
}

/// What is told of each event of this list that is a put or a get, by a history that fits the report: by what the list has of
/// its queue, if that is legal for the capacity, and its rest is what the report has left.
pub fn counts(
    alloc: Global,
    capacities: &[u32],
    report: &Report,
    list: &[Occurrence],
) -> Result<Vec<Option<AtQueue>>, Memory>
    ensures { IfOk result (λ counts. AreCounted capacities.now report.now list.now counts.items) }
{
    let mut counts = vec![in alloc; None; list.len()]?;
    for (queue, capacity) in capacities.iter().enumerate() {
        if let Some(told) = replay(alloc, *capacity, queue, list, left_of(report, queue))? {
            write_counts(&mut counts, queue, list, &told);
        }
    }
    Ok(counts)
}
