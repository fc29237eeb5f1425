//! Writes what a search of a script's runs has found.
ghost use Rattle.std.specs.Prelude.{◌≡◌, ◌++◌, map, OnOk, IfOk, string_bytes};
ghost use Rattle.std.specs.List.{flat_map};
ghost use Rattle.fx_text.specs.View.{meaning};
ghost use Rattle.fx_report.specs.Text.{names_of, queue_names};
ghost use Rattle.fx_explore.specs.StateRows.{values_of};
ghost use Rattle.fx_explore.specs.Told.{told_line, value_lines, told_text};
ghost use Rattle.fx_findings.specs.Explored.{view_halt, view_told};
ghost use Rattle.fx_findings.specs.Text.{finding_text, explored_text};

use crate::explored::{Explored, Finding, HaltedFiber, Told};
use crate::lines::{end_line, push_halt_line, push_last_line, push_schedule_line, push_value_line};
use fx_text::{QueueDecl, Script};
use std::alloc::{AllocError, Global};

fn push_halt_lines(text: &mut String, halts: &[HaltedFiber]) -> Result<(), AllocError>
    ensures { OnOk result (string_bytes text.new
        ≡ string_bytes text.old ++ flat_map told_line (map view_halt halts.now)) }
{
    for halt in halts {
        push_halt_line(text, *halt)?;
    }
    Ok(())
}

/// Appends a line for each queue of which it is told what is left.
fn push_value_lines(
    text: &mut String,
    queues: &[QueueDecl],
    left: &[Vec<u64>],
) -> Result<(), AllocError>
    ensures { OnOk result (string_bytes text.new
        ≡ string_bytes text.old ++ value_lines (names_of queues.now) (values_of left.now)) }
{
    for (queue, values) in queues.iter().zip(left) {
        push_value_line(text, queue, values)?;
    }
    Ok(())
}

pub(crate) fn push_told(
    text: &mut String,
    queues: &[QueueDecl],
    told: &Told,
) -> Result<(), AllocError>
    ensures { OnOk result (string_bytes text.new
        ≡ string_bytes text.old ++ told_text (names_of queues.now) (view_told told.now)) }
{
    push_halt_lines(text, &told.halts)?;
    push_value_lines(text, queues, &told.left)
}

/// Appends the schedule, the report and an empty line.
pub(crate) fn push_finding(
    text: &mut String,
    queues: &[QueueDecl],
    finding: &Finding,
) -> Result<(), AllocError>
    ensures { OnOk result (string_bytes text.new
        ≡ string_bytes text.old ++ finding_text (names_of queues.now) finding.now) }
{
    push_schedule_line(text, &finding.schedule)?;
    push_told(text, queues, &finding.told)?;
    end_line(text)
}

fn push_findings(
    text: &mut String,
    queues: &[QueueDecl],
    findings: &[Finding],
) -> Result<(), AllocError>
    ensures { OnOk result (string_bytes text.new
        ≡ string_bytes text.old ++ flat_map (finding_text (names_of queues.now)) findings.now) }
{
    for finding in findings {
        push_finding(text, queues, finding)?;
    }
    Ok(())
}

/// Each report that was found, with its schedule, and how far the search came.
pub fn format_explored(
    alloc: Global,
    script: &Script,
    explored: &Explored,
) -> Result<String, AllocError>
    ensures { IfOk result (λ text. string_bytes text
        ≡ explored_text (queue_names (meaning script.now)) explored.now) }
{
    let mut text = String::new(alloc);
    push_findings(&mut text, &script.queues, &explored.findings)?;
    push_last_line(
        &mut text,
        explored.findings.len(),
        explored.states,
        explored.ending,
    )?;
    Ok(text)
}
