//! The lines of a report and of its traces.
ghost use Rattle.std.specs.Prelude.{◌≡◌, ◌<◌, ◌++◌, codes, decimal, length, OnOk, string_bytes};
ghost use Rattle.fx_report.specs.Text.{names_of, line_end, number, queue_name};
ghost use Rattle.fx_term.specs.Element.{elements_of};
ghost use Rattle.fx_term.specs.QueuesNamed.{NamesQueueBelow};
ghost use Rattle.fx_report.specs.Text.{outcome_text, halt_line, queue_line, event_text, event_line};

use fx_term::{Event, Item, Outcome, Stamped};
use fx_text::QueueDecl;
use itoa::Buffer;
use std::alloc::AllocError;

/// Appends the end of a line.
pub(crate) fn end_line(text: &mut String) -> Result<(), AllocError>
    ensures { OnOk result (string_bytes text.new ≡ string_bytes text.old ++ line_end) }
{
    text.push('\n')
}

/// Appends a number.
#[inline(always)]
fn push_digits(text: &mut String, value: u64) -> Result<(), AllocError>
    ensures { OnOk result (string_bytes text.new ≡ string_bytes text.old ++ decimal value) }
{
    text.push_str(Buffer::new().format(value))
}

/// Appends these words, and a number.
#[inline(always)]
fn push_numbered(text: &mut String, words: &str, value: u64) -> Result<(), AllocError>
    ensures { OnOk result
        (string_bytes text.new ≡ string_bytes text.old ++ words.now ++ decimal value) }
{
    text.push_str(words)?;
    push_digits(text, value)
}

/// Appends a space, and the words for an outcome.
fn push_end(text: &mut String, outcome: Outcome) -> Result<(), AllocError>
    ensures { OnOk result
        (string_bytes text.new ≡ string_bytes text.old ++ codes " " ++ outcome_text outcome) }
{
    match outcome {
        Outcome::Succeeded(value) => push_numbered(text, " succeeded ", value),
        Outcome::Errored(error) => push_numbered(text, " errored ", error),
        Outcome::Canceled => text.push_str(" canceled"),
    }
}

/// Appends a word, and the name of a queue.
pub(crate) fn push_named(
    text: &mut String,
    word: &str,
    queues: &[QueueDecl],
    queue: u8,
) -> Result<(), AllocError>
    requires { queue < length queues.now }
    ensures { OnOk result (string_bytes text.new
        ≡ string_bytes text.old ++ word.now ++ queue_name (names_of queues.now) queue) }
{
    text.push_str(word)?;
    text.push(' ')?;
    text.push_str(&queues[queue as usize].name)
}

/// Appends a word, the name of a queue, and an element of it.
fn push_moved(
    text: &mut String,
    word: &str,
    queues: &[QueueDecl],
    queue: u8,
    value: u64,
) -> Result<(), AllocError>
    requires { queue < length queues.now }
    ensures { OnOk result (string_bytes text.new ≡ string_bytes text.old
        ++ word.now ++ queue_name (names_of queues.now) queue ++ number value) }
{
    push_named(text, word, queues, queue)?;
    push_numbered(text, " ", value)
}

/// Appends the words for an event, where the script has these queues: what its line has after the stamp.
pub fn push_event(text: &mut String, queues: &[QueueDecl], event: Event) -> Result<(), AllocError>
    requires { NamesQueueBelow (length queues.now) event }
    ensures { OnOk result
        (string_bytes text.new ≡ string_bytes text.old ++ event_text (names_of queues.now) event) }
{
    match event {
        Event::Start(fiber) => push_numbered(text, "start ", u64::from(fiber)),
        Event::Request(fiber) => push_numbered(text, "request ", u64::from(fiber)),
        Event::Awaited(fiber) => push_numbered(text, "awaited ", u64::from(fiber)),
        Event::Joined(fiber, outcome) => {
            push_numbered(text, "joined ", u64::from(fiber))?;
            push_end(text, outcome)
        }
        Event::First(side) => push_numbered(text, "first ", u64::from(side)),
        Event::Put(queue, value) => push_moved(text, "put", queues, queue, value),
        Event::Got(queue, value) => push_moved(text, "got", queues, queue, value),
        Event::Refused(queue) => push_named(text, "refused", queues, queue),
        Event::Empty(queue) => push_named(text, "empty", queues, queue),
        Event::Acquired(resource) => push_numbered(text, "acquired ", resource),
        Event::Begin(resource) => push_numbered(text, "begin ", resource),
        Event::End(resource) => push_numbered(text, "end ", resource),
        Event::Seen => text.push_str("seen"),
        Event::SelfRequest => text.push_str("selfrequest"),
        Event::Cancelled => text.push_str("cancelled"),
        Event::Ended(outcome) => {
            text.push_str("ended")?;
            push_end(text, outcome)
        }
    }
}

/// Appends the line of an event of that fiber, with its stamp, where the script has these queues.
pub(crate) fn push_event_line(
    text: &mut String,
    queues: &[QueueDecl],
    id: u32,
    stamped: Stamped,
) -> Result<(), AllocError>
    requires { NamesQueueBelow (length queues.now) stamped.event }
    ensures { OnOk result (string_bytes text.new ≡ string_bytes text.old
        ++ event_line (names_of queues.now) id stamped.stamp stamped.event) }
{
    push_digits(text, u64::from(id))?;
    push_numbered(text, " ", stamped.stamp)?;
    text.push(' ')?;
    push_event(text, queues, stamped.event)?;
    end_line(text)
}

/// Appends the line of a fiber that ended so, or that waits for good where there is no outcome.
pub(crate) fn push_fiber_line(
    text: &mut String,
    id: u32,
    end: Option<Outcome>,
) -> Result<(), AllocError>
    ensures { OnOk result (string_bytes text.new ≡ string_bytes text.old ++ halt_line id end) }
{
    push_numbered(text, "fiber ", u64::from(id))?;
    match end {
        Some(outcome) => push_end(text, outcome)?,
        None => text.push_str(" blocked")?,
    }
    end_line(text)
}

/// Appends the line of a queue with these elements left, from front to back.
pub(crate) fn push_queue_line(
    text: &mut String,
    queue: &QueueDecl,
    items: &[Item],
) -> Result<(), AllocError>
    ensures { OnOk result (string_bytes text.new
        ≡ string_bytes text.old ++ queue_line (string_bytes queue.now.name) (elements_of items.now)) }
{
    text.push_str("queue ")?;
    text.push_str(&queue.name)?;
    text.push_str(" left")?;
    let mut rest = items;
    while let Some((item, more)) = rest.split_first() {
        push_numbered(text, " ", item.value)?;
        rest = more;
    }
    end_line(text)
}
