//! Does what the words after the program's name ask for.
ghost use Rattle.std.specs.Prelude.{◌≡◌, ◌≢◌, Some, None, IfSome, IfOk, IfErr, codes, map, option_map, string_bytes, length};
ghost use Rattle.fx_text.specs.View.{meaning};
ghost use Rattle.fx_command.specs.CommandFault.{IsUnread};
ghost use Rattle.fx_command.specs.Fetched.{IsPrefixOf, ReadsScript, FetchesNoScript};
ghost use Rattle.fx_command.specs.Fetched.{FetchesSchedule, FetchesNoSchedule, KeepsFiles};
ghost use Rattle.fx_command.specs.Fetched.{FetchesAll, FetchesNone};
ghost use Rattle.fx_command.specs.Call.{CallView, call_of, view_call};
ghost use Rattle.fx_command.specs.Heard.{HearsCall, HearsCommand, HearsAnswer, IsAnswered};
ghost use Rattle.fx_command.specs.Help.{topic_of};
ghost use Rattle.fx_command.specs.CommandAnswer.{known_text, AnswersToCall, Leaves};
ghost use Rattle.fx_command.specs.CommandAnswer.{TellsPage, TellsRefusal, TellsUnreadable, TellsRunFault, Runs};
ghost use Rattle.fx_command.specs.Said.{Says, run_fault_line, unreadable_line};
ghost use Rattle.fx_command.specs.Stream.{PrintsAnswer};

use crate::call::Call;
use crate::command_fault::{CommandFault, Refusal};
use crate::files::{FetchFault, Files};
use crate::help::{page_on, topic_of};
use crate::perform::{Performed, perform};
use crate::printable::push_printable;
use crate::stream::{CutShort, Stream};
use crate::texts::{picks_in, script_in};
pub use fx_findings::{Nobody, Progress, SoFar};
use fx_report::{AnswerFault, ENDED, MOST_OF_SCRIPT, REFUSED, read_text};
pub use fx_report::{FAULT, OTHER_WORDS, UNREADABLE};
use fx_run::RunFault;
use fx_text::{MOST_SCHEDULE_BYTES, Pick, Script};
use std::alloc::{AllocError, AllocGlobal, Global};
use std::io::Write;
use std::random::RandomSource;
use std::sync::Wait;
use std::thread::Threads;

const USAGE: &str =
    "usage: fibers [check F | replay F [SCHEDULE] | trace F [SCHEDULE] | run F WORKERS]\n";

const NO_PAGE: &str = "there is no help on that word; `fibers help` says on which there is\n";

const MEMORY: &str = "fault memory\n";

const WRITE: &str = "fault write\n";

/// One byte more than a schedule may have, so that one that is too long is known to be.
const MOST_OF_SCHEDULE: usize = MOST_SCHEDULE_BYTES + 1;

/// One byte more than what is expected may have. A text that is longer is none that can be read.
const MOST_OF_EXPECTED: usize = 67_108_865;

/// The text of this name, or as many bytes of it as are wanted.
fn fetched<'a, F: Files>(
    alloc: Global,
    files: &mut F,
    name: &'a str,
    most: usize,
) -> Result<Vec<u8>, CommandFault<'a>>
    ensures text { IfOk result
        (λ text. IsPrefixOf most (F.holds files.old name.now) text.items) }
    ensures unread { IfErr result (λ fault. IsUnread (λ n. n ≡ name.now) fault) }
    ensures kept { KeepsFiles (F.holds files.old) (F.holds files.new) }
{
    let mut input = match files.fetch(name) {
        Ok(input) => input,
        Err(FetchFault::Unreadable) => return Err(CommandFault::Unreadable(name)),
        Err(FetchFault::Memory) => return Err(CommandFault::Memory),
    };
    match read_text(alloc, &mut input, most) {
        Ok(text) => Ok(text),
        Err(AnswerFault::Memory) => Err(CommandFault::Memory),
        Err(_) => Err(CommandFault::Unreadable(name)),
    }
}

/// The script of this name, and its text.
fn script_of<'a, F: Files>(
    alloc: Global,
    files: &mut F,
    name: &'a str,
) -> Result<(Script, Vec<u8>), CommandFault<'a>>
    ensures found { IfOk result
        (λ x. ReadsScript (F.holds files.old name.now) x.1.items (meaning x.0)) }
    ensures queues { IfOk result (λ x. x.0.code.queues ≡ length x.0.queues.items) }
    ensures none { IfErr result
        (λ fault. FetchesNoScript name.now (F.holds files.old name.now) fault) }
    ensures kept { KeepsFiles (F.holds files.old) (F.holds files.new) }
{
    let text = fetched(alloc, files, name, MOST_OF_SCRIPT)?;
    let script = script_in(alloc, name, &text)?;
    Ok((script, text))
}

/// The schedule of this name, and the empty one without a name.
fn schedule_of<'a, F: Files>(
    alloc: Global,
    files: &mut F,
    name: Option<&'a str>,
) -> Result<Vec<Pick>, CommandFault<'a>>
    ensures found { let known =
        known_text (F.holds files.old) (option_map (λ n. n.now) name.entry) in
        IfOk result (λ picks. FetchesSchedule known picks.items) }
    ensures none { let named = option_map (λ n. n.now) name.entry in
        IfErr result
        (λ fault. FetchesNoSchedule named (known_text (F.holds files.old) named) fault) }
    ensures kept { KeepsFiles (F.holds files.old) (F.holds files.new) }
{
    let Some(name) = name else {
        return Ok(Vec::new(alloc));
    };
    let text = fetched(alloc, files, name, MOST_OF_SCHEDULE)?;
    picks_in(alloc, name, &text)
}

/// The text of this name which says what is expected, and the empty one without a name.
fn expected_of<'a, F: Files>(
    alloc: Global,
    files: &mut F,
    name: Option<&'a str>,
) -> Result<Vec<u8>, CommandFault<'a>>
    ensures found { let known = known_text (F.holds files.old) (option_map (λ n. n.now) name.entry) in
        IfOk result (λ text. FetchesAll known text.items) }
    ensures none { IfErr result (FetchesNone (option_map (λ n. n.now) name.entry)) }
{
    let Some(name) = name else {
        return Ok(Vec::new(alloc));
    };
    let text = fetched(alloc, files, name, MOST_OF_EXPECTED)?;
    if text.len() >= MOST_OF_EXPECTED {
        return Err(CommandFault::Unreadable(name));
    }
    Ok(text)
}

/// Does what is asked. The script is read whole, and refused if it is none, before the schedule or what is
/// expected is fetched.
fn answer<
    'a,
    R: Wait + Threads + Sync + RandomSource + AllocGlobal,
    F: Files,
    W: Write,
    G: Progress,
>(
    rt: &R,
    alloc: Global,
    call: Call<'a>,
    files: &mut F,
    out: &mut Stream<W>,
    progress: &mut G,
) -> Result<Performed, CommandFault<'a>>
    requires schedule { IfSome call.schedule (λ name. name.now ≢ codes "-") }
    requires expected { IfSome call.expected (λ name. name.now ≢ codes "-") }
    ensures answered { IfOk result (λ performed. PrintsAnswer
        (AnswersToCall (F.holds files.old) (view_call call.entry) (string_bytes performed.words))
        performed.status out.old out.new) }
    ensures fault { IfErr result
        (λ fault. Leaves (F.holds files.old) (view_call call.entry) fault out.old out.new) }
    ensures hears { HearsCommand G.hears progress.old progress.new (view_call call.entry).command }
    ensures tells { IfOk result (λ _. HearsAnswer G.hears progress.old progress.new (F.holds files.old)
        (view_call call.entry) out.old out.new) }
{
    let (script, source) = script_of(alloc, files, call.script)?;
    let picks = schedule_of(alloc, files, call.schedule)?;
    let expected = expected_of(alloc, files, call.expected)?;
    perform(
        rt,
        alloc,
        call.command,
        &script,
        &source,
        &picks,
        &expected,
        out,
        progress,
    )
}

/// Says this on standard error. Nobody is left to tell where that refuses it.
fn say<E: Write>(text: &str, err: &mut Stream<E>)
    ensures { Says text.now err.old err.new }
{
    let _ = err.write(text);
}

/// Prints the page of help on this word, or says that there is none.
fn tell_page<W: Write, E: Write>(topic: &str, out: &mut Stream<W>, err: &mut Stream<E>) -> u8
    ensures { TellsPage topic.now out.old out.new err.old err.new result }
{
    match page_on(topic) {
        Some(page) => match out.write(page) {
            Ok(()) => ENDED,
            Err(CutShort) => {
                say(WRITE, err);
                FAULT
            }
        },
        None => {
            say(NO_PAGE, err);
            OTHER_WORDS
        }
    }
}

/// Prints the line of a refusal, with words for people on standard error.
fn tell_refusal<W: Write, E: Write>(
    refusal: &Refusal,
    out: &mut Stream<W>,
    err: &mut Stream<E>,
) -> u8
    ensures { TellsRefusal (string_bytes refusal.now.line) (string_bytes refusal.now.words)
        out.old out.new err.old err.new result }
{
    match out.write(&refusal.line) {
        Ok(()) => {
            say(&refusal.words, err);
            REFUSED
        }
        Err(CutShort) => {
            say(WRITE, err);
            FAULT
        }
    }
}

/// The line that says that the text of this name cannot be read.
fn format_unreadable(alloc: Global, name: &str) -> Result<String, AllocError>
    ensures { IfOk result (λ line. string_bytes line ≡ unreadable_line name.now) }
{
    let mut line = String::from_str(alloc, "cannot read ")?;
    push_printable(&mut line, name.as_bytes())?;
    line.push_str("\n")?;
    Ok(line)
}

/// Says that the text of this name cannot be read.
fn tell_unreadable<E: Write>(alloc: Global, name: &str, err: &mut Stream<E>) -> u8
    ensures { TellsUnreadable name.now err.old err.new result }
{
    match format_unreadable(alloc, name) {
        Ok(line) => {
            say(&line, err);
            UNREADABLE
        }
        Err(_) => {
            say(MEMORY, err);
            FAULT
        }
    }
}

/// The line of a fault of a run.
fn format_run_fault(alloc: Global, fault: RunFault) -> Result<String, AllocError>
    ensures { IfOk result (λ line. string_bytes line ≡ run_fault_line fault) }
{
    match fault {
        RunFault::Workers => String::from_str(alloc, "fault workers: from 1 to 64\n"),
        RunFault::Memory => String::from_str(alloc, MEMORY),
        RunFault::Lost(fiber) => format!(in alloc; "fault lost {fiber}\n"),
        RunFault::Unsettled(fiber) => format!(in alloc; "fault unsettled {fiber}\n"),
    }
}

/// Says why there is no report of a run.
fn tell_run_fault<E: Write>(alloc: Global, fault: RunFault, err: &mut Stream<E>) -> u8
    ensures { TellsRunFault fault err.old err.new result }
{
    match format_run_fault(alloc, fault) {
        Ok(line) => say(&line, err),
        Err(_) => say(MEMORY, err),
    }
    FAULT
}

/// Does what these words after the program's name ask for, and gives the status:
///
/// | status | when | what is printed |
/// |---|---|---|
/// | 0 | all fibers ended, a check passed, or help was asked for | the text, on `out` |
/// | 1 | some fiber waits for good | the text, on `out`, and what each such fiber waits for, on `err`, but not after a search |
/// | 1 | in place of that, after a search that is compared: a report is not expected | the text, on `out` |
/// | 2 | other words | the words that there are, or that there is no such page of help, on `err` |
/// | 3 | a script or schedule is refused | one line on `out`, and why in words on `err` |
/// | 4 | a text cannot be read | its name, on `err` |
/// | 5 | want of memory, a run that gives no report, or `out` refused a write | the fault, on `err` |
/// | 6 | a search is not complete, and there is no cause for status 1 in what it found | the text, on `out` |
///
/// The texts for `out` and for `err` are whole before the first write, so at want of memory nothing is
/// written on `out`. What a stream refused before this call is not told apart from what it refuses in
/// it, so a caller hands in streams that have refused nothing. How far a search has come is told to whoever
/// listens, if the words ask for it.
pub fn command<
    R: Wait + Threads + Sync + RandomSource + AllocGlobal,
    F: Files,
    W: Write,
    E: Write,
    G: Progress,
>(
    rt: &R,
    alloc: Global,
    words: &[String],
    files: &mut F,
    out: &mut Stream<W>,
    err: &mut Stream<E>,
    progress: &mut G,
) -> u8
    ensures runs { Runs (map string_bytes words.now) (F.holds files.old) out.old out.new err.old err.new
        result }
    ensures hears { HearsCall G.hears progress.old progress.new (call_of (map string_bytes words.now)) }
    ensures tells { (call : CallView) → topic_of (map string_bytes words.now) ≡ None
        → call_of (map string_bytes words.now) ≡ Some call → IsAnswered result
        → HearsAnswer G.hears progress.old progress.new (F.holds files.old) call out.old out.new }
{
    if let Some(topic) = topic_of(words) {
        return tell_page(topic, out, err);
    }
    let Some(call) = Call::of(words) else {
        say(USAGE, err);
        return OTHER_WORDS;
    };
    match answer(rt, alloc, call, files, out, progress) {
        Ok(performed) => {
            say(&performed.words, err);
            performed.status
        }
        Err(fault) => match &fault {
            CommandFault::Refused(refusal) => tell_refusal(refusal, out, err),
            CommandFault::Unreadable(name) => tell_unreadable(alloc, name, err),
            CommandFault::Memory => {
                say(MEMORY, err);
                FAULT
            }
            CommandFault::Run(fault) => tell_run_fault(alloc, *fault, err),
            CommandFault::Write => {
                say(WRITE, err);
                FAULT
            }
        },
    }
}
