//! Compares what a search has found with the reports that a text says, and writes what comes of that.
ghost use Rattle.std.specs.Prelude.{◌≡◌, ◌++◌, IfOk, OnOk, is_some, not, map, option_map, string_bytes};
ghost use Rattle.fx_text.specs.View.{meaning};
ghost use Rattle.fx_report.specs.Text.{names_of, queue_names};
ghost use Rattle.fx_explore.specs.Told.{told_text};
ghost use Rattle.fx_findings.specs.Explored.{view_told};
ghost use Rattle.fx_findings.specs.Expected.{reports_of, is_one_of, first_other};
ghost use Rattle.fx_findings.specs.Compared.{first_unexpected, other_text, text_by, compared_text};
ghost use Rattle.fx_findings.specs.Compared.{status_by, compared_status};

use crate::expected::{is_one_of, reports_of};
use crate::explored::{Explored, Finding, Told};
use crate::lines::push_judged_line;
use crate::status::ending_status;
use crate::write::{push_finding, push_told};
use fx_search::Ending;
use fx_text::{QueueDecl, Script};
use std::alloc::{AllocError, Global};

/// A search has found a report that is not expected.
pub const UNEXPECTED: u8 = 1;

/// What is printed of findings that were compared, and the status.
#[derive(Drop)]
pub struct Compared {
    pub text: String,
    pub status: u8,
}

/// Whether the report is one of these.
fn is_expected(
    alloc: Global,
    queues: &[QueueDecl],
    reports: &[Vec<u8>],
    told: &Told,
) -> Result<bool, AllocError>
    ensures { IfOk result (λ is. is ≡ is_one_of (map (λ report. report.items) reports.now)
        (told_text (names_of queues.now) (view_told told.now))) }
{
    let mut text = String::new(alloc);
    push_told(&mut text, queues, told)?;
    Ok(is_one_of(reports, text.as_bytes()))
}

/// The first finding of which the report is none of these.
fn first_other<'a>(
    alloc: Global,
    queues: &[QueueDecl],
    reports: &[Vec<u8>],
    findings: &'a [Finding],
) -> Result<Option<&'a Finding>, AllocError>
    ensures { IfOk result (λ first. option_map (λ x. x.now) first
        ≡ first_other (names_of queues.now) (map (λ report. report.items) reports.now) findings.now) }
{
    for finding in findings {
        if !is_expected(alloc, queues, reports, &finding.told)? {
            return Ok(Some(finding));
        }
    }
    Ok(None)
}

/// The first finding of which the text does not say the report.
fn first_unexpected<'a>(
    alloc: Global,
    script: &Script,
    explored: &'a Explored,
    expected: &[u8],
) -> Result<Option<&'a Finding>, AllocError>
    ensures { IfOk result (λ first. option_map (λ x. x.now) first
        ≡ first_unexpected (queue_names (meaning script.now)) expected.now explored.now) }
{
    let reports = reports_of(alloc, expected)?;
    first_other(alloc, &script.queues, &reports, &explored.findings)
}

/// The finding, if there is one.
fn push_other(
    text: &mut String,
    queues: &[QueueDecl],
    first: Option<&Finding>,
) -> Result<(), AllocError>
    ensures { OnOk result (string_bytes text.new ≡ string_bytes text.old
        ++ other_text (names_of queues.now) (option_map (λ x. x.now) first.entry)) }
{
    match first {
        Some(finding) => push_finding(text, queues, finding),
        None => Ok(()),
    }
}

/// What is printed where this is the first finding that is not expected.
fn format_by(
    alloc: Global,
    script: &Script,
    explored: &Explored,
    first: Option<&Finding>,
) -> Result<String, AllocError>
    ensures { IfOk result (λ text. string_bytes text
        ≡ text_by (queue_names (meaning script.now)) explored.now (option_map (λ x. x.now) first.entry)) }
{
    let mut text = String::new(alloc);
    push_other(&mut text, &script.queues, first)?;
    push_judged_line(
        &mut text,
        explored.findings.len(),
        explored.states,
        explored.ending,
        first.is_none(),
    )?;
    Ok(text)
}

/// The status where this is the first finding that is not expected.
fn status_by(ending: Ending, first: Option<&Finding>) -> u8
    ensures { result ≡ status_by ending (option_map (λ x. x.now) first.entry) }
{
    match first {
        Some(_) => UNEXPECTED,
        None => ending_status(ending),
    }
}

/// Compares the report of each finding with those of a text, which empty lines part; the line of a schedule and the
/// last line of a search are of no report. The first finding of which the text does not say the report is written, and
/// after it, or alone where the text says all, a line that says so. That the text says other reports is no matter.
pub fn compare(
    alloc: Global,
    script: &Script,
    explored: &Explored,
    expected: &[u8],
) -> Result<Compared, AllocError>
    ensures text { IfOk result (λ compared. string_bytes compared.text
        ≡ compared_text (queue_names (meaning script.now)) expected.now explored.now) }
    ensures status { IfOk result (λ compared. compared.status
        ≡ compared_status (queue_names (meaning script.now)) expected.now explored.now) }
{
    let first = first_unexpected(alloc, script, explored, expected)?;
    Ok(Compared {
        text: format_by(alloc, script, explored, first)?,
        status: status_by(explored.ending, first),
    })
}
