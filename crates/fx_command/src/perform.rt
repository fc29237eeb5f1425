//! Does with a script what is asked, and prints it.
ghost use Rattle.std.specs.Prelude.{◌≡◌, ◌≤◌, ℕ, List, All, IfOk, IfSome, length, string_bytes};
ghost use Rattle.fx_text.specs.View.{meaning};
ghost use Rattle.fx_text.specs.declared.pick.Pick as pick;
ghost use Rattle.fx_command.specs.declared.call.Command.TheVariants as command;
ghost use Rattle.fx_report.specs.Text.{queue_names};
ghost use Rattle.fx_report.specs.Waits.{blocked_text, IsBlockedAtQueueBelow};
ghost use Rattle.fx_text.specs.Grammar.{IsScript};
ghost use Rattle.fx_places.specs.Places.{positions_of};
ghost use Rattle.fx_plain.specs.PassedPicks.{IsWhyAtQueueBelow};
ghost use Rattle.fx_explore.specs.Setting.{setting};
ghost use Rattle.fx_findings.specs.Answer.{IsExplored};
ghost use Rattle.fx_report.specs.Script.{script_of};
ghost use Rattle.fx_findings.specs.Compared.{compared_text};
ghost use Rattle.fx_findings.specs.Heard.{HearsFirst};
ghost use Rattle.fx_findings.specs.Text.{explored_text};
ghost use Rattle.fx_command.specs.Heard.{HearsCommand, HearsTelling, HearsFound, HearsPrinted};
ghost use Rattle.fx_command.specs.declared.call.Telling.TheVariants.{Aloud};
ghost use Rattle.fx_command.specs.Passed.{replay_words};
ghost use Rattle.fx_command.specs.Performed.{counts_text, check_text, Performs};

use crate::call::{Command, Search, Telling};
use crate::command_fault::CommandFault;
use crate::passed::format_passed;
use crate::pictured::{picture, picture_run};
use crate::placed::{places_in, places_of_blocked};
use crate::stream::Stream;
use crate::told_text::format_told;
use fx_findings::{
    Compared, Explored, Nobody, Progress, compare, explore, explored_status, format_explored,
};
use fx_places::{FormPlace, positions};
use fx_plain::{Replayed, replay_to_halt, tell_run};
use fx_report::{Blocked, ENDED, format_report, format_traces, format_waits, status_after};
use fx_run::run_to_halt;
use fx_sched::Free;
use fx_term::Memory;
use fx_text::{Pick, Script};
use std::alloc::{AllocError, AllocGlobal, Global};
use std::io::Write;
use std::random::RandomSource;
use std::sync::Wait;
use std::thread::Threads;

/// What was done with a script and printed: the status, and the words for people about it.
#[derive(Drop)]
pub(crate) struct Performed {
    pub(crate) status: u8,
    pub(crate) words: String,
}

/// The line of a check: how many fibers the script can have, and how many queues it has.
fn format_counts(alloc: Global, fibers: u32, queues: usize) -> Result<String, AllocError>
    ensures { IfOk result (λ text. string_bytes text ≡ counts_text fibers queues) }
{
    format!(in alloc; "fibers {fibers} queues {queues}\n")
}

fn format_check(alloc: Global, script: &Script) -> Result<String, AllocError>
    ensures { IfOk result (λ text. string_bytes text ≡ check_text (meaning script.now)) }
{
    format_counts(alloc, script.total(), script.queues.len())
}

fn check<'a, W: Write>(
    alloc: Global,
    script: &Script,
    picks: &[Pick],
    out: &mut Stream<W>,
) -> Result<Performed, CommandFault<'a>>
    ensures { (source expected : List ℕ) → Performs command.Check source (meaning script.now) picks.now
        expected result out.old out.new }
{
    let line = format_check(alloc, script)?;
    out.write(&line)?;
    Ok(Performed {
        status: ENDED,
        words: String::new(alloc),
    })
}

/// A line for each blocked fiber, with where it stands.
pub(crate) fn format_blocked(
    alloc: Global,
    script: &Script,
    places: &[FormPlace],
    blocked: &[Blocked],
) -> Result<String, AllocError>
    requires { All (IsBlockedAtQueueBelow (length (queue_names (meaning script.now)))) blocked.now }
    ensures { IfOk result (λ text. string_bytes text
        ≡ blocked_text (queue_names (meaning script.now)) (positions_of places.now) blocked.now) }
{
    let positions = positions(alloc, places)?;
    format_waits(alloc, script, &positions, blocked)
}

/// The words for people about a replay: on the picks that were passed over, and on each blocked fiber.
pub(crate) fn format_words(
    alloc: Global,
    script: &Script,
    places: &[FormPlace],
    replayed: &Replayed,
) -> Result<String, AllocError>
    requires blocked { All (IsBlockedAtQueueBelow (length (queue_names (meaning script.now))))
        replayed.now.halt.blocked.items }
    requires passed { IfSome replayed.now.passed (λ told.
        IsWhyAtQueueBelow (length (queue_names (meaning script.now))) told.first.why) }
    ensures { IfOk result (λ text. string_bytes text
        ≡ replay_words (queue_names (meaning script.now)) replayed.now.passed (positions_of places.now)
        replayed.now.halt.blocked.items) }
{
    let mut words = format_passed(alloc, script, replayed.passed)?;
    let waits = format_blocked(alloc, script, places, &replayed.halt.blocked)?;
    words.push_str(&waits)?;
    Ok(words)
}

/// Replays the script, and writes the report.
fn report<'a, W: Write>(
    alloc: Global,
    script: &Script,
    source: &[u8],
    picks: &[Pick],
    out: &mut Stream<W>,
) -> Result<Performed, CommandFault<'a>>
    requires queues { script.now.code.queues ≤ length script.now.queues.items }
    requires says { IsScript source.now (meaning script.now) }
    ensures { (expected : List ℕ) → Performs command.Replay source.now (meaning script.now) picks.now
        expected result out.old out.new }
{
    let replayed = replay_to_halt(alloc, script, picks)?;
    let places = places_of_blocked(alloc, script, source, &replayed.halt.blocked)?;
    let words = format_words(alloc, script, &places, &replayed)?;
    let text = format_report(alloc, script, &replayed.halt.report)?;
    out.write(&text)?;
    Ok(Performed {
        status: status_after(&replayed.halt.report),
        words,
    })
}

/// Replays the script, and writes the traces.
fn trace<'a, W: Write>(
    alloc: Global,
    script: &Script,
    source: &[u8],
    picks: &[Pick],
    out: &mut Stream<W>,
) -> Result<Performed, CommandFault<'a>>
    requires queues { script.now.code.queues ≤ length script.now.queues.items }
    requires says { IsScript source.now (meaning script.now) }
    ensures { (expected : List ℕ) → Performs command.Trace source.now (meaning script.now) picks.now
        expected result out.old out.new }
{
    let replayed = replay_to_halt(alloc, script, picks)?;
    let places = places_of_blocked(alloc, script, source, &replayed.halt.blocked)?;
    let words = format_words(alloc, script, &places, &replayed)?;
    let text = format_traces(alloc, script, &replayed.halt.report)?;
    out.write(&text)?;
    Ok(Performed {
        status: status_after(&replayed.halt.report),
        words,
    })
}

/// Replays the script, and tells it step by step.
fn steps<'a, W: Write>(
    alloc: Global,
    script: &Script,
    source: &[u8],
    picks: &[Pick],
    out: &mut Stream<W>,
) -> Result<Performed, CommandFault<'a>>
    requires queues { script.now.code.queues ≤ length script.now.queues.items }
    requires says { IsScript source.now (meaning script.now) }
    ensures { (expected : List ℕ) → Performs command.Steps source.now (meaning script.now) picks.now
        expected result out.old out.new }
{
    let replayed = replay_to_halt(alloc, script, picks)?;
    let places = places_in(alloc, script, source)?;
    let words = format_words(alloc, script, &places, &replayed)?;
    let told = tell_run(alloc, script, picks)?;
    let text = format_told(alloc, script, &places, &told)?;
    out.write(&text)?;
    Ok(Performed {
        status: status_after(&replayed.halt.report),
        words,
    })
}

/// Runs the script's fibers by so many workers, and writes the report.
fn run<'a, R: Wait + Threads + Sync + RandomSource + AllocGlobal, W: Write>(
    rt: &R,
    alloc: Global,
    script: &Script,
    source: &[u8],
    workers: u32,
    out: &mut Stream<W>,
) -> Result<Performed, CommandFault<'a>>
    requires queues { script.now.code.queues ≤ length script.now.queues.items }
    requires says { IsScript source.now (meaning script.now) }
    ensures { (picks : List pick.Pick) (expected : List ℕ) → Performs (command.Run workers)
        source.now (meaning script.now) picks expected result out.old out.new }
{
    let ran = run_to_halt(rt, alloc, script, workers, &Free)?;
    let places = places_of_blocked(alloc, script, source, &ran.blocked)?;
    let words = format_blocked(alloc, script, &places, &ran.blocked)?;
    let text = format_report(alloc, script, &ran.report)?;
    out.write(&text)?;
    Ok(Performed {
        status: status_after(&ran.report),
        words,
    })
}

/// Runs the script's fibers by so many workers, and writes the traces.
fn record<'a, R: Wait + Threads + Sync + RandomSource + AllocGlobal, W: Write>(
    rt: &R,
    alloc: Global,
    script: &Script,
    source: &[u8],
    workers: u32,
    out: &mut Stream<W>,
) -> Result<Performed, CommandFault<'a>>
    requires queues { script.now.code.queues ≤ length script.now.queues.items }
    requires says { IsScript source.now (meaning script.now) }
    ensures { (picks : List pick.Pick) (expected : List ℕ) → Performs (command.Record workers)
        source.now (meaning script.now) picks expected result out.old out.new }
{
    let ran = run_to_halt(rt, alloc, script, workers, &Free)?;
    let places = places_of_blocked(alloc, script, source, &ran.blocked)?;
    let words = format_blocked(alloc, script, &places, &ran.blocked)?;
    let text = format_traces(alloc, script, &ran.report)?;
    out.write(&text)?;
    Ok(Performed {
        status: status_after(&ran.report),
        words,
    })
}

/// What this search finds of the script's runs. It tells how far it has come, if that is asked for.
fn explored_by<G: Progress>(
    alloc: Global,
    script: &Script,
    search: Search,
    progress: &mut G,
) -> Result<Explored, Memory>
    ensures explored { IfOk result
        (λ explored. IsExplored (setting (script_of (meaning script.now)) search.target) search.most explored) }
    ensures hears { HearsTelling G.hears progress.old progress.new search.telling }
    ensures tells { IfOk result (λ explored. search.telling ≡ Aloud
        → HearsFirst G.hears progress.old progress.new explored.ending explored.states) }
{
    let most = search.most as usize;
    match search.telling {
        Telling::Silent => explore(alloc, script, search.target, most, &mut Nobody),
        Telling::Aloud => explore(alloc, script, search.target, most, progress),
    }
}

/// Visits the script's runs in this search, and writes what it has found.
fn find<'a, W: Write, G: Progress>(
    alloc: Global,
    script: &Script,
    search: Search,
    out: &mut Stream<W>,
    progress: &mut G,
) -> Result<Performed, CommandFault<'a>>
    ensures performs { (source : List ℕ) (picks : List pick.Pick) (expected : List ℕ)
        → Performs (command.Explore search) source (meaning script.now) picks expected result
        out.old out.new }
    ensures hears { HearsTelling G.hears progress.old progress.new search.telling }
    ensures tells { IfOk result (λ _. HearsFound G.hears progress.old progress.new (meaning script.now) search
        (explored_text (queue_names (meaning script.now))) out.old out.new) }
{
    let explored = explored_by(alloc, script, search, progress)?;
    let text = format_explored(alloc, script, &explored)?;
    out.write(&text)?;
    Ok(Performed {
        status: explored_status(&explored),
        words: String::new(alloc),
    })
}

/// Visits the script's runs in this search, and writes what comes of it where it is compared with the reports that are
/// expected.
fn expect<'a, W: Write, G: Progress>(
    alloc: Global,
    script: &Script,
    search: Search,
    expected: &[u8],
    out: &mut Stream<W>,
    progress: &mut G,
) -> Result<Performed, CommandFault<'a>>
    ensures performs { (source : List ℕ) (picks : List pick.Pick) → Performs (command.Expect search) source
        (meaning script.now) picks expected.now result out.old out.new }
    ensures hears { HearsTelling G.hears progress.old progress.new search.telling }
    ensures tells { IfOk result (λ _. HearsFound G.hears progress.old progress.new (meaning script.now) search
        (compared_text (queue_names (meaning script.now)) expected.now) out.old out.new) }
{
    let found = explored_by(alloc, script, search, progress)?;
    let Compared { text, status } = compare(alloc, script, &found, expected)?;
    out.write(&text)?;
    Ok(Performed {
        status,
        words: String::new(alloc),
    })
}

/// Does with the script, which this text says, and the picks what is asked, and prints it; a run and a search go by no picks, and only a search
/// that is compared by what is expected. The
/// script's code names no queue that is not declared. The status is 0 where all fibers ended or are only
/// counted, and 1 where one waits for good: then the words have a line for each fiber that does. Before these
/// they have one on the picks that a replay or a trace passed over, if there are any. After a search there are
/// none, whatever it has found, and the status is 6 where it is not complete and has found no fiber that waits
/// for good. Where it is compared, the status is 1 where it has found a report that is not expected, whether a fiber waits
/// for good in it or not, and else 6 or 0. It is 5 where a picture would be too large: then nothing is printed, and the words
/// say so. How far a search has come is told to whoever listens, if that is asked for.
pub(crate) fn perform<
    'a,
    R: Wait + Threads + Sync + RandomSource + AllocGlobal,
    W: Write,
    G: Progress,
>(
    rt: &R,
    alloc: Global,
    command: Command,
    script: &Script,
    source: &[u8],
    picks: &[Pick],
    expected: &[u8],
    out: &mut Stream<W>,
    progress: &mut G,
) -> Result<Performed, CommandFault<'a>>
    requires queues { script.now.code.queues ≤ length script.now.queues.items }
    requires says { IsScript source.now (meaning script.now) }
    ensures performs { Performs command source.now (meaning script.now) picks.now expected.now result
        out.old out.new }
    ensures hears { HearsCommand G.hears progress.old progress.new command }
    ensures tells { IfOk result (λ _. HearsPrinted G.hears progress.old progress.new command (meaning script.now)
        expected.now out.old out.new) }
{
    match command {
        Command::Check => check(alloc, script, picks, out),
        Command::Replay => report(alloc, script, source, picks, out),
        Command::Trace => trace(alloc, script, source, picks, out),
        Command::Steps => steps(alloc, script, source, picks, out),
        Command::Run(workers) => run(rt, alloc, script, source, workers, out),
        Command::Record(workers) => record(rt, alloc, script, source, workers, out),
        Command::Picture => picture(alloc, script, source, picks, out),
        Command::PictureRun(workers) => picture_run(rt, alloc, script, source, workers, out),
        Command::Explore(search) => find(alloc, script, search, out, progress),
        Command::Expect(search) => expect(alloc, script, search, expected, out, progress),
    }
}
