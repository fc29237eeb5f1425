//! Puts the events of a report into one list.
ghost use Rattle.std.specs.Prelude.{◌≡◌, ◌++◌, OnOk, IfOk};
ghost use Rattle.std.specs.List.{flat_map};
ghost use Rattle.std.specs.List.Sorted.{IsPermutation};
ghost use Rattle.fx_term.specs.Stamped.{events_in, stamps_in};
ghost use Rattle.fx_order.specs.Occurrences.{occurrences_from, occurrences_of, occurrences, IsInOrder};
ghost use Rattle.fx_order.specs.CausalOrder.{PutsCausesFirst};

use crate::occurrence::Occurrence;
use fx_model::{FiberReport, Report};
use fx_term::{Memory, Stamped};
use std::alloc::Global;

/// Appends the events of that fiber, whose trace this is.
fn push_trace(list: &mut Vec<Occurrence>, fiber: u32, trace: &[Stamped]) -> Result<(), Memory>
    ensures { OnOk result (list.new.items ≡ list.old.items
        ++ occurrences_from fiber 0 (events_in trace.now) (stamps_in trace.now)) }
{
    for (place, stamped) in trace.iter().enumerate() {
        list.push(Occurrence {
            fiber,
            place,
            event: stamped.event,
            stamp: stamped.stamp,
        })?;
    }
    Ok(())
}

/// The events of all these fibers, one fiber after the other.
fn gather(alloc: Global, fibers: &[FiberReport]) -> Result<Vec<Occurrence>, Memory>
    ensures { IfOk result (λ list. list.items ≡ flat_map occurrences_of fibers.now) }
{
    let mut list = Vec::new(alloc);
    for fiber in fibers {
        push_trace(&mut list, fiber.id, &fiber.trace)?;
    }
    Ok(list)
}

/// All events of a report, by stamp, then by the number of the fiber, then by their place in its trace.
/// It fails only where memory runs out.
pub fn order_by_stamp(alloc: Global, report: &Report) -> Result<Vec<Occurrence>, Memory>
    ensures each_once { IfOk result (λ list. IsPermutation (occurrences report.now) list.items) }
    ensures sorted { IfOk result (λ list. IsInOrder list.items) }
    ensures causes { IfOk result (λ list. PutsCausesFirst report.now list.items) }
{
    let mut list = gather(alloc, &report.fibers)?;
    list.sort_unstable_by_key(|it| (it.stamp, it.fiber, it.place));
    Ok(list)
}
