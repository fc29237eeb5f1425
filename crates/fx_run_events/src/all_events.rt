//! All events of a run on threads.
ghost use Rattle.std.specs.Prelude.{◌≡◌, ◌++◌, [], drop, slice_index_or, IfOk, OnOk};
ghost use Rattle.fx_term.specs.Stamped.{events_in};
ghost use Rattle.fx_follow.specs.Followed.{stands_of};
ghost use Rattle.fx_run_events.specs.RanEvents.{first_count, held_by, counts_of, events_of, events_in_turn, ran_events};

use crate::causes::Known;
use crate::counted::Counted;
use crate::ran_event::RanEvent;
use crate::sole_puts::known_puts;
use fx_counts::AtQueue;
use fx_follow::Stand;
use fx_model::{FiberReport, Report};
use fx_order::Occurrence;
use fx_term::Stamped;
use std::alloc::{AllocError, Global};

/// All but the first of these.
fn after_first<T>(items: &[T]) -> &[T]
    ensures { result.now ≡ drop 1 items.now }
{
    match items.split_first() {
        Some((_first, more)) => more,
        None => items,
    }
}

/// What is told of the first of these fibers.
fn first_told(told: &[Vec<Stand>]) -> &[Stand]
    ensures { result.now ≡ slice_index_or (stands_of told.now) 0 [] }
{
    match told.first() {
        Some(stands) => stands,
        None => &[],
    }
}

/// The first of these counts.
fn first_count(counts: &[Option<AtQueue>]) -> Option<AtQueue>
    ensures { result ≡ first_count counts.now }
{
    match counts.first() {
        Some(count) => *count,
        None => None,
    }
}

/// How many elements a queue held by this.
fn held_by(at_queue: Option<AtQueue>) -> Option<usize>
    ensures { result ≡ held_by at_queue }
{
    match at_queue {
        Some(at_queue) => Some(at_queue.held),
        None => None,
    }
}

/// The counts of the events of that fiber, of those of this list.
fn counts_of(
    alloc: Global,
    fiber: u32,
    list: &[Occurrence],
    counts: &[Option<AtQueue>],
) -> Result<Vec<Option<AtQueue>>, AllocError>
    ensures { IfOk result (λ own. own.items ≡ counts_of fiber list.now counts.now) }
{
    let mut own = Vec::new(alloc);
    let mut counts = counts;
    let mut rest = list;
    while let Some((it, more)) = rest.split_first() {
        if it.fiber == fiber {
            own.push(first_count(counts))?;
        }
        counts = after_first(counts);
        rest = more;
    }
    Ok(own)
}

/// Appends the events of the fiber, whose trace this is, which stood there, and of which that is told at their queues.
fn push_events(
    events: &mut Vec<RanEvent>,
    known: &Known<'_>,
    fiber: u32,
    stands: &[Stand],
    counts: &[Option<AtQueue>],
    trace: &[Stamped],
) -> Result<(), AllocError>
    ensures { OnOk result (events.new.items ≡ events.old.items
        ++ events_of known.now.puts.now known.now.list.now known.now.fibers.now fiber stands.now counts.now (events_in trace.now)) }
{
    let mut stands = stands;
    let mut counts = counts;
    let mut rest = trace;
    while let Some((stamped, more)) = rest.split_first() {
        let stand = stands.first().copied();
        let at_queue = first_count(counts);
        events.push(RanEvent {
            fiber,
            event: stamped.event,
            stand,
            held: held_by(at_queue),
            cause: known.cause_of(stand, at_queue, stamped.event),
        })?;
        stands = after_first(stands);
        counts = after_first(counts);
        rest = more;
    }
    Ok(())
}

/// Appends the events of these fibers, of which that is told.
fn push_fibers(
    alloc: Global,
    events: &mut Vec<RanEvent>,
    known: &Known<'_>,
    told: &[Vec<Stand>],
    counts: &[Option<AtQueue>],
    fibers: &[FiberReport],
) -> Result<(), AllocError>
    ensures { OnOk result (events.new.items ≡ events.old.items
        ++ events_in_turn known.now.puts.now known.now.list.now known.now.fibers.now (stands_of told.now) counts.now fibers.now) }
{
    let mut told = told;
    let mut rest = fibers;
    while let Some((fiber, more)) = rest.split_first() {
        let own = counts_of(alloc, fiber.id, known.list, counts)?;
        push_events(
            events,
            known,
            fiber.id,
            first_told(told),
            &own,
            &fiber.trace,
        )?;
        told = after_first(told);
        rest = more;
    }
    Ok(())
}

/// All events of a report, fiber by fiber, of which that is told: where the fibers stood, and what the queues went through.
pub fn ran_events(
    alloc: Global,
    told: &[Vec<Stand>],
    counted: &Counted,
    report: &Report,
) -> Result<Vec<RanEvent>, AllocError>
    ensures { IfOk result (λ events. events.items ≡ ran_events (stands_of told.now) counted.now.list.items
        counted.now.counts.items report.now.fibers) }
{
    let puts = known_puts(alloc, &report.fibers)?;
    let known = Known {
        puts: &puts,
        list: &counted.list,
        fibers: &report.fibers,
    };
    let mut events = Vec::new(alloc);
    push_fibers(
        alloc,
        &mut events,
        &known,
        told,
        &counted.counts,
        &report.fibers,
    )?;
    Ok(events)
}
