//! Draws pictures of runs.
ghost use Rattle.std.specs.Prelude.{◌≡◌, ◌≤◌, ℕ, List, All, IfOk, IfSome, IfNone, length, string_bytes};
ghost use Rattle.fx_text.specs.View.{meaning};
ghost use Rattle.fx_text.specs.declared.pick.Pick as pick;
ghost use Rattle.fx_command.specs.declared.call.Command.TheVariants as command;
ghost use Rattle.fx_report.specs.Text.{queue_names};
ghost use Rattle.fx_picture.specs.Handles.{view_handles};
ghost use Rattle.fx_picture.specs.IsPicture.{IsPicture, IsTooLarge};
ghost use Rattle.fx_text.specs.Grammar.{IsScript};
ghost use Rattle.fx_command.specs.Pictured.{IsPictured};
ghost use Rattle.fx_command.specs.Performed.{Performs};

use crate::command_fault::CommandFault;
use crate::handles::{handles_of, handles_of_run};
use crate::perform::{Performed, format_blocked, format_words};
use crate::placed::{places_in, places_of_run};
use crate::stood_events::stood_events;
use crate::stood_of_run::stood_of_run;
use crate::stream::Stream;
use fx_model::Report;
use fx_picture::{Handle, PictureFault, Stood, format_picture};
use fx_plain::{replay_to_halt, tell_run};
use fx_report::{Blocked, FAULT, status_after};
use fx_run::run_to_halt;
use fx_run_events::{counts_told, ran_events, stands_told};
use fx_sched::Free;
use fx_text::{Pick, Script};
use std::alloc::{AllocError, AllocGlobal, Global};
use std::io::Write;
use std::random::RandomSource;
use std::sync::Wait;
use std::thread::Threads;

const TOO_LARGE: &str = "fault picture: too many events\n";

/// A picture and what goes with it: its text, which is empty where it would be too large, the words for people, and the
/// status.
#[derive(Drop)]
struct Pictured {
    text: String,
    words: String,
    status: u8,
}

/// The text of the picture, or none where it would be too large.
fn text_of(
    alloc: Global,
    script: &Script,
    stood: &[Stood],
    report: &Report,
    handles: &[Handle],
    blocked: &[Blocked],
) -> Result<Option<String>, AllocError>
    ensures drawn { IfOk result (λ made. IfSome made (λ text.
        IsPicture (queue_names (meaning script.now)) stood.now report.now (view_handles handles.now) blocked.now
        (string_bytes text))) }
    ensures refused { IfOk result
        (λ made. IfNone made (IsTooLarge (queue_names (meaning script.now)) report.now)) }
{
    match format_picture(alloc, script, report, stood, handles, blocked) {
        Ok(text) => Ok(Some(text)),
        Err(PictureFault::TooLarge) => Ok(None),
        Err(PictureFault::Memory) => Err(AllocError),
    }
}

/// The picture of a report, in whose run fibers stood there and are called so, with these words for people.
fn drawn_of(
    alloc: Global,
    script: &Script,
    stood: &[Stood],
    report: &Report,
    handles: &[Handle],
    blocked: &[Blocked],
    words: String,
) -> Result<Pictured, AllocError>
    ensures { IfOk result (λ made. IsPictured (queue_names (meaning script.now)) stood.now report.now
        (view_handles handles.now) blocked.now (string_bytes words) (string_bytes made.words) made.status
        (string_bytes made.text)) }
{
    match text_of(alloc, script, stood, report, handles, blocked)? {
        Some(text) => Ok(Pictured {
            text,
            words,
            status: status_after(report),
        }),
        None => Ok(Pictured {
            text: String::new(alloc),
            words: String::from_str(alloc, TOO_LARGE)?,
            status: FAULT,
        }),
    }
}

/// Draws the run that the picks choose, with where its fibers stood and what the text calls them.
pub(crate) fn picture<'a, W: Write>(
    alloc: Global,
    script: &Script,
    source: &[u8],
    picks: &[Pick],
    out: &mut Stream<W>,
) -> Result<Performed, CommandFault<'a>>
    requires queues { script.now.code.queues ≤ length script.now.queues.items }
    requires says { IsScript source.now (meaning script.now) }
    ensures { (expected : List ℕ) → Performs command.Picture source.now (meaning script.now) picks.now
        expected result out.old out.new }
{
    let replayed = replay_to_halt(alloc, script, picks)?;
    let places = places_in(alloc, script, source)?;
    let words = format_words(alloc, script, &places, &replayed)?;
    let told = tell_run(alloc, script, picks)?;
    let stood = stood_events(alloc, script, &places, &told)?;
    let handles = handles_of(alloc, source, &places, &told)?;
    let drawn = drawn_of(
        alloc,
        script,
        &stood,
        &replayed.halt.report,
        &handles,
        &replayed.halt.blocked,
        words,
    )?;
    out.write(&drawn.text)?;
    Ok(Performed {
        status: drawn.status,
        words: drawn.words,
    })
}

/// Runs the script's fibers by so many workers, and draws the run, with what is found of it afterwards: where its fibers stood
/// and what the text calls them, how many elements its queues held, and what caused its gets and each first of two.
pub(crate) fn picture_run<'a, R: Wait + Threads + Sync + RandomSource + AllocGlobal, W: Write>(
    rt: &R,
    alloc: Global,
    script: &Script,
    source: &[u8],
    workers: u32,
    out: &mut Stream<W>,
) -> Result<Performed, CommandFault<'a>>
    requires queues { script.now.code.queues ≤ length script.now.queues.items }
    requires says { IsScript source.now (meaning script.now) }
    ensures { (picks : List pick.Pick) (expected : List ℕ) → Performs (command.PictureRun workers)
        source.now (meaning script.now) picks expected result out.old out.new }
{
    let ran = run_to_halt(rt, alloc, script, workers, &Free)?;
    let told = stands_told(alloc, script, &ran.report)?;
    let places = places_of_run(alloc, script, source, &told, &ran.blocked)?;
    let words = format_blocked(alloc, script, &places, &ran.blocked)?;
    let counted = counts_told(alloc, script, &ran.report)?;
    let events = ran_events(alloc, &told, &counted, &ran.report)?;
    let stood = stood_of_run(alloc, &places, &events)?;
    let names = handles_of_run(alloc, source, &places, &events)?;
    let drawn = drawn_of(
        alloc,
        script,
        &stood,
        &ran.report,
        &names,
        &ran.blocked,
        words,
    )?;
    out.write(&drawn.text)?;
    Ok(Performed {
        status: drawn.status,
        words: drawn.words,
    })
}
