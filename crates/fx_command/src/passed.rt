//! Says how many picks of a schedule were passed over, and of the first of them why.
ghost use Rattle.std.specs.Prelude.{◌≡◌, IfOk, IfSome, length, string_bytes};
ghost use Rattle.fx_text.specs.View.{meaning};
ghost use Rattle.fx_report.specs.Text.{queue_names};
ghost use Rattle.fx_plain.specs.PassedPicks.{IsWhyAtQueueBelow};
ghost use Rattle.fx_command.specs.Passed.{first_words, passed_text, why_line};

use fx_plain::{PassedOver, Why};
use fx_report::{Blocked, Wait, format_waits};
use fx_text::Script;
use std::alloc::{AllocError, Global};

/// The end of the line: why a pick of this fiber was passed over.
pub(crate) fn format_why(
    alloc: Global,
    script: &Script,
    fiber: u32,
    why: Why,
) -> Result<String, AllocError>
    requires { IsWhyAtQueueBelow (length (queue_names (meaning script.now))) why }
    ensures { IfOk result (λ text.
        string_bytes text ≡ why_line (queue_names (meaning script.now)) fiber why) }
{
    match why {
        Why::NoFiber => format!(in alloc; "the script has no fiber {fiber}\n"),
        Why::NotStarted => format!(in alloc; "fiber {fiber} has not started\n"),
        Why::Ended => format!(in alloc; "fiber {fiber} has ended\n"),
        Why::Waits(source) => {
            let wait = Wait { fiber, source };
            format_waits(alloc, script, &[], &[Blocked { wait, node: None }])
        }
    }
}

/// The beginning of the line: how many there are, and the place of the first.
fn format_first(alloc: Global, count: usize, place: usize) -> Result<String, AllocError>
    ensures { IfOk result (λ text. string_bytes text ≡ first_words count place) }
{
    if count == 1 {
        format!(in alloc; "fibers: 1 pick of the schedule was passed over; it is pick {place}: ")
    } else {
        format!(in alloc;
            "fibers: {count} picks of the schedule were passed over; the first is pick {place}: "
        )
    }
}

/// The line for people where picks were passed over; nothing where all fit.
pub(crate) fn format_passed(
    alloc: Global,
    script: &Script,
    passed: Option<PassedOver>,
) -> Result<String, AllocError>
    requires { IfSome passed (λ told.
        IsWhyAtQueueBelow (length (queue_names (meaning script.now))) told.first.why) }
    ensures { IfOk result (λ text.
        string_bytes text ≡ passed_text (queue_names (meaning script.now)) passed) }
{
    let Some(told) = passed else {
        return Ok(String::new(alloc));
    };
    let mut text = format_first(alloc, told.count, told.first.place)?;
    let why = format_why(alloc, script, told.first.fiber(), told.first.why)?;
    text.push_str(&why)?;
    Ok(text)
}
