//! What a report tells of the outside at its end.
ghost use Rattle.std.specs.Prelude.{◌≡◌, Some, IfOk, ℕ, slice_index_or, None, length};
ghost use Rattle.std.specs.List.{list_any};
ghost use Rattle.fx_term.specs.declared.outcome.Outcome.{Outcome as AnyOutcome};
ghost use Rattle.fx_term.specs.Stamped.{events_in};
ghost use Rattle.fx_text.specs.View.{meaning};
ghost use Rattle.fx_model.specs.Report.{FiberReportView, outcome_shown, trace_in, is_request_for, is_requested_in, left_in, final_outside};
ghost use Rattle.fx_model.specs.WaitsFor.{has_come};
ghost use Rattle.fx_report.specs.Script.{script_of};

use fx_model::{FiberReport, Report, Source};
use fx_term::{Event, Memory, Outcome, Stamped};
use fx_text::Script;
use std::alloc::Global;

/// The outcome that this trace tells.
fn outcome_in(trace: &[Stamped]) -> Option<Outcome>
    ensures { result ≡ outcome_shown (events_in trace.now) }
{
    for stamped in trace {
        if let Event::Ended(outcome) = stamped.event {
            return Some(outcome);
        }
    }
    None
}

/// The outcome that the trace of this fiber tells, if the report has the fiber.
fn outcome_of(report: &Report, fiber: u32) -> Option<Outcome>
    ensures { result ≡ outcome_shown (trace_in report.now fiber) }
{
    for reported in &report.fibers {
        if reported.id == fiber {
            return outcome_in(&reported.trace);
        }
    }
    None
}

/// The outcomes of so many fibers, by number.
pub(crate) fn outcomes_of(
    alloc: Global,
    report: &Report,
    total: u32,
) -> Result<Vec<Option<Outcome>>, Memory>
    ensures { IfOk result (λ outcomes. (g : ℕ) (o : AnyOutcome) → slice_index_or outcomes.items g None ≡ Some o
        → outcome_shown (trace_in report.now g) ≡ Some o) }
{
    let mut outcomes = Vec::with_capacity(alloc, total as usize)?;
    for fiber in 0..total {
        outcomes.push(outcome_of(report, fiber))?;
    }
    Ok(outcomes)
}

/// Whether this requests the fiber.
fn is_request_for(event: Event, fiber: u32) -> bool
    ensures { result ≡ is_request_for fiber event }
{
    match event {
        Event::Request(requested) => requested == fiber,
        _ => false,
    }
}

/// Whether this trace requests the fiber.
fn requests(trace: &[Stamped], fiber: u32) -> bool
    ensures { result ≡ list_any (is_request_for fiber) (events_in trace.now) }
{
    for stamped in trace {
        if is_request_for(stamped.event, fiber) {
            return true;
        }
    }
    false
}

/// Whether the trace of one of these requests the fiber.
fn one_requests(fibers: &[FiberReport], fiber: u32) -> bool
    ensures { result ≡ list_any (λ (x : FiberReportView). list_any (is_request_for fiber) x.trace) fibers.now }
{
    for reported in fibers {
        if requests(&reported.trace, fiber) {
            return true;
        }
    }
    false
}

/// Whether some fiber, or somebody outside, requested this one.
pub(crate) fn is_requested(report: &Report, fiber: u32) -> bool
    ensures { result ≡ is_requested_in report.now fiber }
{
    one_requests(&report.fibers, fiber) || report.outside.contains(&fiber)
}

/// How many elements are left in this queue; none where there is no such queue.
fn left_in(report: &Report, queue: u8) -> usize
    ensures { result ≡ length (left_in report.now queue) }
{
    match report.left.get(queue as usize) {
        Some(items) => items.len(),
        None => 0,
    }
}

/// Whether this queue has room at the end; none that is not declared has.
fn has_room(script: &Script, report: &Report, queue: u8) -> bool
    ensures { result ≡ (final_outside (script_of (meaning script.now)) report.now).has_room queue }
{
    match script.queues.get(queue as usize) {
        Some(declared) => left_in(report, queue) < declared.cap as usize,
        None => false,
    }
}

/// Whether that has come for which a fiber waits.
pub(crate) fn has_come(script: &Script, report: &Report, source: Source) -> bool
    ensures { result ≡ has_come (final_outside (script_of (meaning script.now)) report.now) source }
{
    match source {
        Source::Nothing => false,
        Source::Outcome(fiber) => outcome_of(report, fiber).is_some(),
        Source::Either(left, right) => {
            outcome_of(report, left).is_some() || outcome_of(report, right).is_some()
        }
        Source::Room(queue) => has_room(script, report, queue),
        Source::Element(queue) => left_in(report, queue) > 0,
    }
}
