//! Reads the reports that a text says a script's runs may have.
ghost use Rattle.std.specs.Prelude.{◌≡◌, ◌==◌, IfOk, OnOk, ◌++◌, length, map, List, ℕ};
ghost use Rattle.std.specs.List.{slice_split};
ghost use Rattle.fx_findings.specs.Expected.{lines_of, is_beside, report_line, report_of};
ghost use Rattle.fx_findings.specs.Expected.{reports_in, reports_of, is_one_of};

use std::alloc::{AllocError, Global};

/// What stands between the ends of lines.
fn lines_of<'a>(alloc: Global, text: &'a [u8]) -> Result<Vec<&'a [u8]>, AllocError>
    ensures { IfOk result (λ lines. map (λ line. line.now) lines.items ≡ lines_of text.now) }
{
    text.split(|b| *b == b'\n').collect(alloc)
}

/// What stands between empty lines.
fn groups_of<'a, 'b>(
    alloc: Global,
    lines: &'a [&'b [u8]],
) -> Result<Vec<&'a [&'b [u8]]>, AllocError>
    ensures { IfOk result (λ groups. map (λ group. group.now) groups.items
        ≡ slice_split (λ line. length line.now == 0) lines.now) }
{
    lines.split(|line| line.is_empty()).collect(alloc)
}

/// Whether the line is of no report.
fn is_beside(line: &[u8]) -> bool
    ensures { result ≡ is_beside line.now }
{
    line.starts_with(b"schedule")
        || line == b"no schedule".as_slice()
        || line.starts_with(b"explored:")
}

/// Appends the line, if it is of a report.
fn push_line(report: &mut Vec<u8>, line: &[u8]) -> Result<(), AllocError>
    ensures { OnOk result (report.new.items ≡ report.old.items ++ report_line line.now) }
{
    if is_beside(line) {
        return Ok(());
    }
    report.extend_from_slice(line)?;
    report.push(b'\n')?;
    Ok(())
}

/// The report that these lines are.
fn report_of(alloc: Global, lines: &[&[u8]]) -> Result<Vec<u8>, AllocError>
    ensures { IfOk result (λ report. report.items ≡ report_of (map (λ line. line.now) lines.now)) }
{
    let mut report = Vec::new(alloc);
    for line in lines {
        push_line(&mut report, line)?;
    }
    Ok(report)
}

/// The reports that these groups of lines are.
fn reports_in(alloc: Global, groups: &[&[&[u8]]]) -> Result<Vec<Vec<u8>>, AllocError>
    ensures { IfOk result (λ reports. map (λ report. report.items) reports.items
        ≡ reports_in (map (λ group. map (λ line. line.now) group.now) groups.now)) }
{
    let mut reports = Vec::new(alloc);
    for group in groups {
        let report = report_of(alloc, group)?;
        if !report.is_empty() {
            reports.push(report)?;
        }
    }
    Ok(reports)
}

/// The reports of the text, which empty lines part.
pub(crate) fn reports_of(alloc: Global, text: &[u8]) -> Result<Vec<Vec<u8>>, AllocError>
    ensures { IfOk result
        (λ reports. map (λ report. report.items) reports.items ≡ reports_of text.now) }
{
    let lines = lines_of(alloc, text)?;
    let groups = groups_of(alloc, &lines)?;
    reports_in(alloc, &groups)
}

/// Whether the text is one of these reports.
pub(crate) fn is_one_of(reports: &[Vec<u8>], text: &[u8]) -> bool
    ensures { result ≡ is_one_of (map (λ report. report.items) reports.now) text.now }
{
    reports.iter().any(|report| report.as_slice() == text)
}
