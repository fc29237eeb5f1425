//! From the text of a script to its printed report.
ghost use Rattle.std.specs.Prelude.{IfOk, string_bytes};
ghost use Rattle.fx_report.specs.Answer.{IsAnswer};
ghost use Rattle.fx_plain.specs.TextReplay.{IsReplayOf, Replays};

use crate::chosen_run::replay;
use fx_report::{Answer, AnswerFault as PlainFault, MOST_OF_SCRIPT, read_text, write_text};
use fx_term::Memory;
use fx_text::{Pick, TextKind, parse};
use std::alloc::Global;
use std::io::{Read, Write};

fn answer_to(alloc: Global, text: &[u8], picks: &[Pick]) -> Result<Answer, Memory>
    ensures { IfOk result (λ answer.
        IsAnswer (IsReplayOf picks.now) text.now answer.status (string_bytes answer.text)) }
{
    match parse(alloc, text) {
        Ok(script) => {
            let report = replay(alloc, &script, picks)?;
            Ok(Answer::reported(alloc, &script, &report)?)
        }
        Err(fault) => match fault.kind {
            TextKind::Memory => Err(Memory),
            _ => Ok(Answer::refused(alloc, fault)?),
        },
    }
}

/// Reads a script until the reader's end or until 65,537 bytes are in hand, makes the run of its fibers
/// that the picks choose, and writes the report, or the line `refused K at N` where the text is refused
/// with a fault of kind K at byte N. It answers 0 where all fibers ended, 1 where one waits for good,
/// and 3 where the text was refused. The text to write is whole before the first write.
pub fn replay_text<R: Read, W: Write>(
    alloc: Global,
    reader: &mut R,
    picks: &[Pick],
    writer: &mut W,
) -> Result<u8, PlainFault>
    ensures { Replays picks.now (R.remaining reader.old) (R.remaining reader.new) result
        (W.contents writer.old) (W.contents writer.new) }
{
    let text = read_text(alloc, reader, MOST_OF_SCRIPT)?;
    let answer = answer_to(alloc, &text, picks)?;
    write_text(writer, answer.text.as_bytes())?;
    Ok(answer.status)
}
