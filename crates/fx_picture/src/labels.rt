//! The words of a picture.
ghost use Rattle.std.specs.Prelude.{◌≡◌, ◌++◌, ◌∷◌, [], OnOk, IfOk, string_bytes};
ghost use Rattle.fx_report.specs.Text.{names_of, outcome_text, queue_name, event_text, state_text, number, end_text};
ghost use Rattle.fx_picture.specs.Labels.{mark_words, line_words, fold_words, fiber_words};
ghost use Rattle.fx_picture.specs.Handles.{view_handles, name_of, name_words};
ghost use Rattle.fx_picture.specs.Labels.{wait_of, wait_words, count_words};

use crate::handle::{Handle, name_of};
use crate::stood::{Stood, push_stood};
use fx_model::{FiberReport, Source, State};
use fx_order::Occurrence;
use fx_report::Blocked;
use fx_term::{Event, Outcome};
use fx_text::QueueDecl;
use std::alloc::{AllocError, Global};

fn push_outcome(text: &mut String, outcome: Outcome) -> Result<(), AllocError>
    ensures { OnOk result
        (string_bytes text.new ≡ string_bytes text.old ++ outcome_text outcome) }
{
    match outcome {
        Outcome::Succeeded(value) => write!(text, "succeeded {value}"),
        Outcome::Errored(error) => write!(text, "errored {error}"),
        Outcome::Canceled => text.push_str("canceled"),
    }
}

/// Appends a word, and the name of a queue.
fn push_named(
    text: &mut String,
    word: &str,
    queues: &[QueueDecl],
    queue: u8,
) -> Result<(), AllocError>
    ensures { OnOk result (string_bytes text.new
        ≡ string_bytes text.old ++ word.now ++ queue_name (names_of queues.now) queue) }
{
    text.push_str(word)?;
    text.push(' ')?;
    match queues.get(queue as usize) {
        Some(it) => text.push_str(&it.name),
        None => Ok(()),
    }
}

/// Appends a word, the name of a queue, and an element of it.
fn push_moved(
    text: &mut String,
    word: &str,
    queues: &[QueueDecl],
    queue: u8,
    value: u64,
) -> Result<(), AllocError>
    ensures { OnOk result (string_bytes text.new ≡ string_bytes text.old
        ++ word.now ++ queue_name (names_of queues.now) queue ++ number value) }
{
    push_named(text, word, queues, queue)?;
    write!(text, " {value}")
}

/// Appends the words for an event, where the script has these queues.
fn push_event(text: &mut String, queues: &[QueueDecl], event: Event) -> Result<(), AllocError>
    ensures { OnOk result
        (string_bytes text.new ≡ string_bytes text.old ++ event_text (names_of queues.now) event) }
{
    match event {
        Event::Start(fiber) => write!(text, "start {fiber}"),
        Event::Request(fiber) => write!(text, "request {fiber}"),
        Event::Awaited(fiber) => write!(text, "awaited {fiber}"),
        Event::Joined(fiber, outcome) => {
            write!(text, "joined {fiber} ")?;
            push_outcome(text, outcome)
        }
        Event::First(side) => write!(text, "first {side}"),
        Event::Put(queue, value) => push_moved(text, "put", queues, queue, value),
        Event::Got(queue, value) => push_moved(text, "got", queues, queue, value),
        Event::Refused(queue) => push_named(text, "refused", queues, queue),
        Event::Empty(queue) => push_named(text, "empty", queues, queue),
        Event::Acquired(resource) => write!(text, "acquired {resource}"),
        Event::Begin(resource) => write!(text, "begin {resource}"),
        Event::End(resource) => write!(text, "end {resource}"),
        Event::Seen => text.push_str("seen"),
        Event::SelfRequest => text.push_str("selfrequest"),
        Event::Cancelled => text.push_str("cancelled"),
        Event::Ended(outcome) => {
            text.push_str("ended ")?;
            push_outcome(text, outcome)
        }
    }
}

/// Appends the line of a trace that has the event, without its end, and where its fiber stood.
fn push_mark_words(
    text: &mut String,
    queues: &[QueueDecl],
    stood: &[Stood],
    it: Occurrence,
) -> Result<(), AllocError>
    ensures { OnOk result (string_bytes text.new
        ≡ string_bytes text.old ++ mark_words (names_of queues.now) stood.now it) }
{
    let (fiber, stamp) = (it.fiber, it.stamp);
    write!(text, "{fiber} {stamp} ")?;
    push_event(text, queues, it.event)?;
    push_stood(text, stood, it)
}

/// The words of a mark: the line of its event in a trace, and where its fiber stood.
pub(crate) fn mark_words(
    alloc: Global,
    queues: &[QueueDecl],
    stood: &[Stood],
    it: Occurrence,
) -> Result<String, AllocError>
    ensures { IfOk result (λ text. string_bytes text ≡ mark_words (names_of queues.now) stood.now it) }
{
    let mut text = String::new(alloc);
    push_mark_words(&mut text, queues, stood, it)?;
    Ok(text)
}

/// Appends these events, a line each, with the end of the line before it.
fn push_lines(
    text: &mut String,
    queues: &[QueueDecl],
    stood: &[Stood],
    list: &[Occurrence],
) -> Result<(), AllocError>
    ensures { OnOk result (string_bytes text.new
        ≡ string_bytes text.old ++ line_words (names_of queues.now) stood.now list.now) }
{
    let mut rest = list;
    while let Some((it, more)) = rest.split_first() {
        text.push('\n')?;
        push_mark_words(text, queues, stood, *it)?;
        rest = more;
    }
    Ok(())
}

/// The words of the mark of several events: how many they are, and a line for each.
pub(crate) fn fold_words(
    alloc: Global,
    queues: &[QueueDecl],
    stood: &[Stood],
    list: &[Occurrence],
) -> Result<String, AllocError>
    ensures { IfOk result
        (λ text. string_bytes text ≡ fold_words (names_of queues.now) stood.now list.now) }
{
    let count = list.len();
    let mut text = format!(in alloc; "{count} events:")?;
    push_lines(&mut text, queues, stood, list)?;
    Ok(text)
}

/// Appends the outcome that an event tells, if it is the end of its fiber.
fn push_end_of(text: &mut String, event: Event) -> Result<(), AllocError>
    ensures { OnOk result
        (string_bytes text.new ≡ string_bytes text.old ++ end_text (event ∷ [])) }
{
    match event {
        Event::Ended(outcome) => push_outcome(text, outcome),
        _ => Ok(()),
    }
}

fn push_end(text: &mut String, fiber: &FiberReport) -> Result<(), AllocError>
    ensures { OnOk result (string_bytes text.new
        ≡ string_bytes text.old ++ state_text fiber.now.has_ended fiber.now.trace) }
{
    match fiber.state {
        State::Blocked => text.push_str("blocked"),
        State::Ended => match fiber.trace.last() {
            Some(last) => push_end_of(text, last.event),
            None => Ok(()),
        },
    }
}

/// How a fiber is at the end, as it is told by its last event.
pub(crate) fn end_words(alloc: Global, fiber: &FiberReport) -> Result<String, AllocError>
    ensures { IfOk result (λ text. string_bytes text
        ≡ state_text fiber.now.has_ended fiber.now.trace) }
{
    let mut text = String::new(alloc);
    push_end(&mut text, fiber)?;
    Ok(text)
}

/// Appends a space and what a fiber is called, if it is.
fn push_name(text: &mut String, handles: &[Handle], fiber: u32) -> Result<(), AllocError>
    ensures { OnOk result (string_bytes text.new
        ≡ string_bytes text.old ++ name_words (name_of (view_handles handles.now) fiber)) }
{
    match name_of(handles, fiber) {
        Some(name) => {
            text.push(' ')?;
            text.push_str(name)
        }
        None => Ok(()),
    }
}

/// The number of a fiber, and what it is called.
pub(crate) fn fiber_words(
    alloc: Global,
    handles: &[Handle],
    fiber: &FiberReport,
) -> Result<String, AllocError>
    ensures { IfOk result (λ text. string_bytes text ≡ fiber_words (view_handles handles.now) fiber.now) }
{
    let id = fiber.id;
    let mut text = format!(in alloc; "fiber {id}")?;
    push_name(&mut text, handles, id)?;
    Ok(text)
}

/// What the fiber of that number waits for, where these are blocked.
pub(crate) fn wait_of(blocked: &[Blocked], fiber: u32) -> Option<Source>
    ensures { result ≡ wait_of blocked.now fiber }
{
    let mut rest = blocked;
    while let Some((it, more)) = rest.split_first() {
        if it.wait.fiber == fiber {
            return Some(it.wait.source);
        }
        rest = more;
    }
    None
}

fn push_wait(text: &mut String, queues: &[QueueDecl], source: Source) -> Result<(), AllocError>
    ensures { OnOk result (string_bytes text.new
        ≡ string_bytes text.old ++ wait_words (names_of queues.now) source) }
{
    match source {
        Source::Nothing => text.push_str("nothing"),
        Source::Outcome(fiber) => write!(text, "fiber {fiber}"),
        Source::Either(left, right) => write!(text, "fiber {left} or {right}"),
        Source::Room(queue) => push_named(text, "room in", queues, queue),
        Source::Element(queue) => push_named(text, "one of", queues, queue),
    }
}

/// Few words for what is waited for, since they stand in a lane.
pub(crate) fn wait_words(
    alloc: Global,
    queues: &[QueueDecl],
    source: Source,
) -> Result<String, AllocError>
    ensures { IfOk result (λ text. string_bytes text ≡ wait_words (names_of queues.now) source) }
{
    let mut text = String::new(alloc);
    push_wait(&mut text, queues, source)?;
    Ok(text)
}

/// How many fibers and events a picture has.
pub(crate) fn count_words(alloc: Global, fibers: usize, events: usize) -> Result<String, AllocError>
    ensures { IfOk result (λ text. string_bytes text ≡ count_words fibers events) }
{
    format!(in alloc; "{fibers} fibers and {events} events. ")
}
