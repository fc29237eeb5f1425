//! Writes the report of a run, and its traces.
ghost use Rattle.std.specs.Prelude.{◌≡◌, ◌++◌, length, map, All, OnOk, IfOk, IfErr, string_bytes};
ghost use Rattle.std.specs.List.{flat_map};
ghost use Rattle.std.specs.Io.KnownBytes.{Appends};
ghost use Rattle.fx_text.specs.View.{meaning};
ghost use Rattle.fx_report.specs.Output.{FailsToWrite};
ghost use Rattle.fx_report.specs.Text.{names_of, queue_names, IsWritableFiber, IsWritable};
ghost use Rattle.fx_term.specs.Element.{elements_of};
ghost use Rattle.fx_term.specs.QueuesNamed.{NamesQueueBelow};
ghost use Rattle.fx_report.specs.Text.{ends, state_text, halt_text, fiber_line, queue_lines, event_line, trace_lines};
ghost use Rattle.fx_report.specs.Text.{report_text, trace_text};

use crate::lines::{push_event_line, push_fiber_line, push_queue_line};
use crate::out_fault::OutFault;
use crate::output::write_text;
use fx_model::{FiberReport, Report};
use fx_term::{Event, Item, Outcome, Stamped};
use fx_text::{QueueDecl, Script};
use std::alloc::{AllocError, Global};
use std::io::Write;

/// Most lines of fibers have no more bytes than this, so room for so many each is had at once.
const LINE: usize = 24;

/// The outcome that a fiber has ended with, which its trace tells.
fn outcome_of(fiber: &FiberReport) -> Option<Outcome>
    requires { ends fiber.now.trace ≡ fiber.now.has_ended }
    ensures { halt_text result ≡ state_text fiber.now.has_ended fiber.now.trace }
{
    match fiber.trace.last()?.event {
        Event::Ended(outcome) => Some(outcome),
        _ => None,
    }
}

fn push_fiber_lines(text: &mut String, fibers: &[FiberReport]) -> Result<(), AllocError>
    requires { All (λ x. ends x.trace ≡ x.has_ended) fibers.now }
    ensures { OnOk result
        (string_bytes text.new ≡ string_bytes text.old ++ flat_map fiber_line fibers.now) }
{
    for fiber in fibers {
        push_fiber_line(text, fiber.id, outcome_of(fiber))?;
    }
    Ok(())
}

fn push_queue_lines(
    text: &mut String,
    queues: &[QueueDecl],
    left: &[Vec<Item>],
) -> Result<(), AllocError>
    requires { length left.now ≡ length queues.now }
    ensures { OnOk result (string_bytes text.new ≡ string_bytes text.old
        ++ queue_lines (names_of queues.now) (map (λ items. elements_of items.items) left.now)) }
{
    for (i, queue) in queues.iter().enumerate() {
        push_queue_line(text, queue, &left[i])?;
    }
    Ok(())
}

/// Appends a line an event of a trace of that fiber.
fn push_stamped_lines(
    text: &mut String,
    queues: &[QueueDecl],
    id: u32,
    trace: &[Stamped],
) -> Result<(), AllocError>
    requires { All (λ x. NamesQueueBelow (length queues.now) x.event) trace.now }
    ensures { OnOk result (string_bytes text.new ≡ string_bytes text.old
        ++ flat_map (λ x. event_line (names_of queues.now) id x.stamp x.event) trace.now) }
{
    for stamped in trace {
        push_event_line(text, queues, id, *stamped)?;
    }
    Ok(())
}

/// Appends a line an event of that fiber.
fn push_trace_lines(
    text: &mut String,
    queues: &[QueueDecl],
    fiber: &FiberReport,
) -> Result<(), AllocError>
    requires { All (NamesQueueBelow (length queues.now)) fiber.now.trace }
    ensures { OnOk result (string_bytes text.new
        ≡ string_bytes text.old ++ trace_lines (names_of queues.now) fiber.now) }
{
    push_stamped_lines(text, queues, fiber.id, &fiber.trace)
}

fn push_traces(
    text: &mut String,
    queues: &[QueueDecl],
    fibers: &[FiberReport],
) -> Result<(), AllocError>
    requires { All (λ x. All (NamesQueueBelow (length queues.now)) x.trace) fibers.now }
    ensures { OnOk result (string_bytes text.new
        ≡ string_bytes text.old ++ flat_map (trace_lines (names_of queues.now)) fibers.now) }
{
    for fiber in fibers {
        push_trace_lines(text, queues, fiber)?;
    }
    Ok(())
}

/// How each fiber is at the end, and what is left in each queue.
pub fn format_report(alloc: Global, script: &Script, report: &Report) -> Result<String, AllocError>
    requires { IsWritable (queue_names (meaning script.now)) report.now }
    ensures { IfOk result
        (λ text. string_bytes text ≡ report_text (queue_names (meaning script.now)) report.now) }
{
    let mut text = String::with_capacity(alloc, report.fibers.len().saturating_mul(LINE))?;
    push_fiber_lines(&mut text, &report.fibers)?;
    push_queue_lines(&mut text, &script.queues, &report.left)?;
    Ok(text)
}

/// Each fiber's trace, a line an event.
pub fn format_traces(alloc: Global, script: &Script, report: &Report) -> Result<String, AllocError>
    requires { IsWritable (queue_names (meaning script.now)) report.now }
    ensures { IfOk result
        (λ text. string_bytes text ≡ trace_text (queue_names (meaning script.now)) report.now) }
{
    let mut text = String::new(alloc);
    push_traces(&mut text, &script.queues, &report.fibers)?;
    Ok(text)
}

/// Writes how each fiber is at the end, and what is left in each queue. The text is made whole before
/// the first write.
pub fn write_report<W: Write>(
    alloc: Global,
    script: &Script,
    report: &Report,
    writer: &mut W,
) -> Result<(), OutFault>
    requires { IsWritable (queue_names (meaning script.now)) report.now }
    ensures whole { OnOk result (Appends (W.contents writer.old) (W.contents writer.new)
        (report_text (queue_names (meaning script.now)) report.now)) }
    ensures part { IfErr result (λ fault. FailsToWrite fault
        (report_text (queue_names (meaning script.now)) report.now)
        (W.contents writer.old) (W.contents writer.new)) }
{
    let text = format_report(alloc, script, report)?;
    write_text(writer, text.as_bytes())
}

/// Writes each fiber's trace, a line an event. The text is made whole before the first write.
pub fn write_trace<W: Write>(
    alloc: Global,
    script: &Script,
    report: &Report,
    writer: &mut W,
) -> Result<(), OutFault>
    requires { IsWritable (queue_names (meaning script.now)) report.now }
    ensures whole { OnOk result (Appends (W.contents writer.old) (W.contents writer.new)
        (trace_text (queue_names (meaning script.now)) report.now)) }
    ensures part { IfErr result (λ fault. FailsToWrite fault
        (trace_text (queue_names (meaning script.now)) report.now)
        (W.contents writer.old) (W.contents writer.new)) }
{
    let text = format_traces(alloc, script, report)?;
    write_text(writer, text.as_bytes())
}
