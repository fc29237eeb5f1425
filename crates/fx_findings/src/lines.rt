//! The lines of a finding, and the last one of all.
ghost use Rattle.std.specs.Prelude.{◌≡◌, ◌++◌, codes, decimal, OnOk, option_map, string_bytes};
ghost use Rattle.std.specs.List.{flat_map};
ghost use Rattle.fx_report.specs.Text.{line_end, number, outcome_text, halt_line};
ghost use Rattle.fx_explore.specs.Told.{value_line};
ghost use Rattle.fx_findings.specs.Text.{pick_text, schedule_line, ending_text, counts_text, last_line};
ghost use Rattle.fx_findings.specs.Compared.{cut_text, judged_text, judged_line};

use crate::explored::HaltedFiber;
use fx_search::Ending;
use fx_term::Outcome;
use fx_text::{Pick, QueueDecl};
use itoa::Buffer;
use std::alloc::AllocError;

/// Appends the end of a line.
pub(crate) fn end_line(text: &mut String) -> Result<(), AllocError>
    ensures { OnOk result (string_bytes text.new ≡ string_bytes text.old ++ line_end) }
{
    text.push('\n')
}

/// Appends these words, and a number.
#[inline(always)]
fn push_numbered(text: &mut String, words: &str, value: u64) -> Result<(), AllocError>
    ensures { OnOk result
        (string_bytes text.new ≡ string_bytes text.old ++ words.now ++ decimal value) }
{
    text.push_str(words)?;
    text.push_str(Buffer::new().format(value))
}

/// Appends a space, and the word of a pick.
fn push_pick(text: &mut String, pick: Pick) -> Result<(), AllocError>
    ensures { OnOk result (string_bytes text.new ≡ string_bytes text.old ++ pick_text pick) }
{
    match pick {
        Pick::Step(fiber) => push_numbered(text, " ", u64::from(fiber)),
        Pick::Cancel(fiber) => push_numbered(text, " c", u64::from(fiber)),
    }
}

fn push_picks(text: &mut String, picks: &[Pick]) -> Result<(), AllocError>
    ensures { OnOk result
        (string_bytes text.new ≡ string_bytes text.old ++ flat_map pick_text picks.now) }
{
    for pick in picks {
        push_pick(text, *pick)?;
    }
    Ok(())
}

/// Appends the line of a schedule, if there is one.
pub(crate) fn push_schedule_line(
    text: &mut String,
    schedule: &Option<Vec<Pick>>,
) -> Result<(), AllocError>
    ensures { OnOk result (string_bytes text.new ≡ string_bytes text.old
        ++ schedule_line (option_map (λ picks. picks.items) schedule.now)) }
{
    match schedule {
        Some(picks) => {
            text.push_str("schedule")?;
            push_picks(text, picks)?;
        }
        None => text.push_str("no schedule")?,
    }
    end_line(text)
}

/// Appends a space, and the words for an outcome.
fn push_end(text: &mut String, outcome: Outcome) -> Result<(), AllocError>
    ensures { OnOk result
        (string_bytes text.new ≡ string_bytes text.old ++ codes " " ++ outcome_text outcome) }
{
    match outcome {
        Outcome::Succeeded(value) => push_numbered(text, " succeeded ", value),
        Outcome::Errored(error) => push_numbered(text, " errored ", error),
        Outcome::Canceled => text.push_str(" canceled"),
    }
}

/// Appends the line of a fiber that halted so.
pub(crate) fn push_halt_line(text: &mut String, halt: HaltedFiber) -> Result<(), AllocError>
    ensures { OnOk result
        (string_bytes text.new ≡ string_bytes text.old ++ halt_line halt.id halt.outcome) }
{
    push_numbered(text, "fiber ", u64::from(halt.id))?;
    match halt.outcome {
        Some(outcome) => push_end(text, outcome)?,
        None => text.push_str(" blocked")?,
    }
    end_line(text)
}

fn push_values(text: &mut String, values: &[u64]) -> Result<(), AllocError>
    ensures { OnOk result
        (string_bytes text.new ≡ string_bytes text.old ++ flat_map number values.now) }
{
    for value in values {
        push_numbered(text, " ", *value)?;
    }
    Ok(())
}

/// Appends the line of a queue with these values left, from front to back.
pub(crate) fn push_value_line(
    text: &mut String,
    queue: &QueueDecl,
    values: &[u64],
) -> Result<(), AllocError>
    ensures { OnOk result (string_bytes text.new
        ≡ string_bytes text.old ++ value_line (string_bytes queue.now.name) values.now) }
{
    text.push_str("queue ")?;
    text.push_str(&queue.name)?;
    text.push_str(" left")?;
    push_values(text, values)?;
    end_line(text)
}

/// Appends the words for how a search ended.
fn push_ending(text: &mut String, ending: Ending) -> Result<(), AllocError>
    ensures { OnOk result (string_bytes text.new ≡ string_bytes text.old ++ ending_text ending) }
{
    match ending {
        Ending::Exhausted => text.push_str("complete"),
        Ending::Limit | Ending::Memory => text.push_str("incomplete"),
    }
}

/// Appends how many reports were found, and from how many states.
fn push_counts(text: &mut String, reports: usize, states: usize) -> Result<(), AllocError>
    ensures { OnOk result (string_bytes text.new
        ≡ string_bytes text.old ++ counts_text reports states) }
{
    push_numbered(text, "explored: ", reports as u64)?;
    push_numbered(text, " reports, ", states as u64)?;
    text.push_str(" states, ")
}

/// Appends the line that says how many reports were found, from how many states, and how the search ended.
pub(crate) fn push_last_line(
    text: &mut String,
    reports: usize,
    states: usize,
    ending: Ending,
) -> Result<(), AllocError>
    ensures { OnOk result (string_bytes text.new
        ≡ string_bytes text.old ++ last_line reports states ending) }
{
    push_counts(text, reports, states)?;
    push_ending(text, ending)?;
    end_line(text)
}

/// Appends that a search is not complete, where it is not, before what else is said of it.
fn push_cut(text: &mut String, ending: Ending) -> Result<(), AllocError>
    ensures { OnOk result (string_bytes text.new ≡ string_bytes text.old ++ cut_text ending) }
{
    match ending {
        Ending::Exhausted => Ok(()),
        Ending::Limit | Ending::Memory => text.push_str("incomplete, "),
    }
}

/// Appends the words for findings that are all expected, or not.
fn push_judged(text: &mut String, are_all: bool) -> Result<(), AllocError>
    ensures { OnOk result (string_bytes text.new ≡ string_bytes text.old ++ judged_text are_all) }
{
    text.push_str(if are_all {
        "all expected"
    } else {
        "not all expected"
    })
}

/// Appends the line that says how many reports were found, from how many states, and whether all are expected.
pub(crate) fn push_judged_line(
    text: &mut String,
    reports: usize,
    states: usize,
    ending: Ending,
    are_all: bool,
) -> Result<(), AllocError>
    ensures { OnOk result (string_bytes text.new
        ≡ string_bytes text.old ++ judged_line reports states ending are_all) }
{
    push_counts(text, reports, states)?;
    push_cut(text, ending)?;
    push_judged(text, are_all)?;
    end_line(text)
}
