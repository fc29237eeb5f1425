//! Reads a script or a schedule, or says why the text is refused.
ghost use Rattle.std.specs.Prelude.{◌≡◌, IfOk, IfErr, length, string_bytes};
ghost use Rattle.fx_text.specs.Grammar.{IsScript};
ghost use Rattle.fx_text.specs.Schedule.{IsSchedule};
ghost use Rattle.fx_text.specs.View.{meaning};
ghost use Rattle.fx_report.specs.Refusal.{refusal_text};
ghost use Rattle.fx_command.specs.CommandFault.{IsRefusal};
ghost use Rattle.fx_command.specs.Refused.{IsNoScript, schedule_refusal_text, IsNoSchedule};

use crate::command_fault::{CommandFault, Refusal};
use crate::explain::explain;
use crate::schedule_words::wrong_in_schedule;
use crate::script_words::wrong_in_script;
use fx_report::format_refusal;
use fx_text::{Pick, Script, TextFault, TextKind, parse, schedule};
use std::alloc::{AllocError, Global};

/// What is said of a script that is refused with this fault.
fn script_refusal(
    alloc: Global,
    name: &str,
    text: &[u8],
    fault: TextFault,
) -> Result<Refusal, AllocError>
    ensures { IfOk result (λ refusal. string_bytes refusal.line ≡ refusal_text fault) }
{
    let line = format_refusal(alloc, fault)?;
    let wrong = wrong_in_script(alloc, text, fault)?;
    let words = explain(alloc, name, text, fault.at, &wrong)?;
    Ok(Refusal { line, words })
}

/// The script that the text of this name says.
pub(crate) fn script_in<'a>(
    alloc: Global,
    name: &str,
    text: &[u8],
) -> Result<Script, CommandFault<'a>>
    ensures found { IfOk result (λ s. IsScript text.now (meaning s)) }
    ensures queues { IfOk result (λ s. s.code.queues ≡ length s.queues.items) }
    ensures refused { IfErr result (λ fault. IsRefusal (λ line. IsNoScript line text.now) fault) }
{
    match parse(alloc, text) {
        Ok(script) => Ok(script),
        Err(fault) => match fault.kind {
            TextKind::Memory => Err(CommandFault::Memory),
            _ => Err(CommandFault::Refused(script_refusal(alloc, name, text, fault)?)),
        },
    }
}

/// The line for a schedule that is refused with this fault.
fn format_schedule_refusal(alloc: Global, fault: TextFault) -> Result<String, AllocError>
    ensures { IfOk result (λ text. string_bytes text ≡ schedule_refusal_text fault) }
{
    let mut line = String::from_str(alloc, "schedule ")?;
    line.push_str(&format_refusal(alloc, fault)?)?;
    Ok(line)
}

/// What is said of a schedule that is refused with this fault.
fn schedule_refusal(
    alloc: Global,
    name: &str,
    text: &[u8],
    fault: TextFault,
) -> Result<Refusal, AllocError>
    ensures { IfOk result (λ refusal. string_bytes refusal.line ≡ schedule_refusal_text fault) }
{
    let line = format_schedule_refusal(alloc, fault)?;
    let wrong = wrong_in_schedule(alloc, text, fault)?;
    let words = explain(alloc, name, text, fault.at, &wrong)?;
    Ok(Refusal { line, words })
}

/// The picks that the text of this name spells.
pub(crate) fn picks_in<'a>(
    alloc: Global,
    name: &str,
    text: &[u8],
) -> Result<Vec<Pick>, CommandFault<'a>>
    ensures found { IfOk result (λ picks. IsSchedule text.now picks.items) }
    ensures refused { IfErr result (λ fault. IsRefusal (λ line. IsNoSchedule line text.now) fault) }
{
    match schedule(alloc, text) {
        Ok(picks) => Ok(picks),
        Err(fault) => match fault.kind {
            TextKind::Memory => Err(CommandFault::Memory),
            _ => Err(CommandFault::Refused(schedule_refusal(alloc, name, text, fault)?)),
        },
    }
}
