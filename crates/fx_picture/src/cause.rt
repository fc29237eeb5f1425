//! Which events stand on which.
ghost use Rattle.std.specs.Prelude.{◌≡◌};
ghost use Rattle.fx_picture.specs.Causes.{is_told_by, is_seen, is_first, is_got_of, is_at, has_caused};
ghost use Rattle.fx_picture.specs.Causes.{cause_of, cause_class};

use crate::stood::{EventAt, Stood};
use fx_order::Occurrence;
use fx_term::Event;

/// What one event is to another that stands on it.
#[derive(Clone, Copy, PartialEq, Eq, Debug)]
pub enum Cause {
    /// The start of the other's fiber, of which that is the first event.
    Start,
    /// The end that the other tells of.
    End,
    /// A request for the other's fiber, which sees one.
    Request,
    /// The put of the element that the other takes.
    Element,
}

/// Whether the event tells that this fiber has ended.
fn is_told_by(fiber: u32, event: Event) -> bool
    ensures { result ≡ is_told_by fiber event }
{
    match event {
        Event::Joined(other, _) | Event::Awaited(other) => other == fiber,
        _ => false,
    }
}

fn is_seen(event: Event) -> bool
    ensures { result ≡ is_seen event }
{
    matches!(event, Event::Seen)
}

fn is_first(event: Event) -> bool
    ensures { result ≡ is_first event }
{
    matches!(event, Event::First(_))
}

/// Whether the event takes that value out of that queue.
fn is_got_of(queue: u8, value: u64, event: Event) -> bool
    ensures { result ≡ is_got_of queue value event }
{
    match event {
        Event::Got(from, taken) => from == queue && taken == value,
        _ => false,
    }
}

/// Whether it is the one that is told.
fn is_at(it: Occurrence, told: Option<EventAt>) -> bool
    ensures { result ≡ is_at it told }
{
    match told {
        Some(at) => at.fiber == it.fiber && at.place == it.place,
        None => false,
    }
}

/// Whether some event is told to have that one as its cause.
pub(crate) fn has_caused(stood: &[Stood], it: Occurrence) -> bool
    ensures { result ≡ has_caused stood.now it }
{
    stood.iter().any(|entry| is_at(it, entry.cause))
}

/// What the first is to the second, if that stands on it. This event, if one, is told to have caused the second.
pub(crate) fn cause_of(
    told: Option<EventAt>,
    first: Occurrence,
    second: Occurrence,
) -> Option<Cause>
    ensures { result ≡ cause_of told first second }
{
    match first.event {
        Event::Start(fiber) => {
            if second.place == 0 && second.fiber == fiber {
                Some(Cause::Start)
            } else {
                None
            }
        }
        Event::Ended(_) => {
            if is_told_by(first.fiber, second.event)
                || is_first(second.event) && is_at(first, told)
            {
                Some(Cause::End)
            } else {
                None
            }
        }
        Event::Request(fiber) => {
            if is_seen(second.event) && second.fiber == fiber {
                Some(Cause::Request)
            } else {
                None
            }
        }
        Event::Put(queue, value) => {
            if is_got_of(queue, value, second.event) && is_at(first, told) {
                Some(Cause::Element)
            } else {
                None
            }
        }
        _ => None,
    }
}

impl Cause {
    /// The name by which the style means its arrows.
    pub(crate) fn class(self) -> &'static str
        ensures { result.now ≡ cause_class self }
    {
        match self {
            Cause::Start => "arrow start",
            Cause::End => "arrow end",
            Cause::Request => "arrow cancel dashed",
            Cause::Element => "arrow put",
        }
    }
}
