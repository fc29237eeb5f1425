//! What each report must account for, told from its traces alone.
use crate::rows::Machine;
use fx_fiber::{FiberReport, Report, State};
use fx_order::order_by_stamp;
use fx_order_tests::first_before_cause;
use fx_run::run;
use fx_sched::Gate;
use fx_term::{Event, Item, Memory, Outcome, Stamped};
use fx_text::Script;
use std::test::Fail;

/// Runs a script by so many workers, and fails where its report does not add up, or only a sweep put a fiber back.
pub fn assert_adds_up<G: Gate + Sync>(
    rt: &impl Machine,
    script: &Script,
    workers: u32,
    gate: &G,
) -> Result<(), Fail> {
    let report = run(rt, rt.alloc(), script, workers, gate)?;
    assert!(rt; adds_up(&report) && puts_causes_first(rt, &report)?);
    assert_eq!(rt; report.late, 0);
    Ok(())
}

/// Whether causes come first in the list of the report's events by stamp.
pub fn puts_causes_first(rt: &impl Machine, report: &Report) -> Result<bool, Memory> {
    let list = order_by_stamp(rt.alloc(), report)?;
    Ok(first_before_cause(&list, &report.outside).is_none())
}

/// Whether the report accounts for its fibers and for the elements of its queues.
pub fn adds_up(report: &Report) -> bool {
    for fiber in report.fibers.iter() {
        if !ends_as_told(fiber) || !is_answered(report, fiber) {
            return false;
        }
    }
    for (queue, left) in report.left.iter().enumerate() {
        if !balances(report, queue, left) {
            return false;
        }
    }
    true
}

/// Whether the fiber has ended just where its trace ends so.
fn ends_as_told(fiber: &FiberReport) -> bool {
    outcome(fiber).is_some() == matches!(fiber.state, State::Ended)
}

fn outcome(fiber: &FiberReport) -> Option<Outcome> {
    match fiber.trace.last() {
        Some(
            Stamped {
                event: Event::Ended(outcome),
                ..
            },
        ) => Some(*outcome),
        _ => None,
    }
}

/// Whether each fiber that it started is told with its parent, each that it joined ended as it found, each
/// that it waited to be canceled ended, and it was requested where it saw that.
fn is_answered(report: &Report, fiber: &FiberReport) -> bool {
    for shown in fiber.trace.iter() {
        let answered = match shown.event {
            Event::Start(child) => parent(report, child) == Some(fiber.id),
            Event::Joined(other, found) => end(report, other) == Some(found),
            Event::Awaited(other) => end(report, other).is_some(),
            Event::Seen => is_requested(report, fiber.id),
            _ => true,
        };
        if !answered {
            return false;
        }
    }
    true
}

fn parent(report: &Report, id: u32) -> Option<u32> {
    report.fibers.iter().find(|fiber| fiber.id == id)?.parent
}

fn end(report: &Report, id: u32) -> Option<Outcome> {
    outcome(report.fibers.iter().find(|fiber| fiber.id == id)?)
}

/// Whether the fiber was requested, by another one or from outside.
fn is_requested(report: &Report, id: u32) -> bool {
    report.outside.contains(&id)
        || report.fibers.iter().any(|fiber| fiber
            .trace
            .iter()
            .any(|shown| shown.event == Event::Request(id)))
}

/// Whether what was put into the queue is what was taken out of it and what is left, in number and in sum.
fn balances(report: &Report, queue: usize, left: &[Item]) -> bool {
    let mut count = 0u64;
    let mut sum = 0u64;
    for item in left {
        count = count.wrapping_add(1);
        sum = sum.wrapping_add(item.value);
    }
    for fiber in report.fibers.iter() {
        for shown in fiber.trace.iter() {
            match shown.event {
                Event::Put(q, value) if q as usize == queue => {
                    count = count.wrapping_sub(1);
                    sum = sum.wrapping_sub(value);
                }
                Event::Got(q, value) if q as usize == queue => {
                    count = count.wrapping_add(1);
                    sum = sum.wrapping_add(value);
                }
                _ => {}
            }
        }
    }
    count == 0 && sum == 0
}
