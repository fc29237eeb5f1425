//! What events do at queues.
ghost use Rattle.std.specs.Prelude.{◌≡◌, ◌≤◌, ◌<◌, ◌^◌, ◌++◌, length, IfOk, string_bytes};
ghost use Rattle.fx_picture.specs.Visits.{queue_at, is_queue, count_at, times_words, visit_class, visit_words};

use fx_order::Occurrence;
use fx_term::Event;
use std::alloc::{AllocError, Global};

/// The queue that an event is at.
pub(crate) fn queue_at(event: Event) -> Option<u8>
    ensures { result ≡ queue_at event }
{
    match event {
        Event::Put(queue, _) | Event::Got(queue, _) => Some(queue),
        Event::Refused(queue) | Event::Empty(queue) => Some(queue),
        _ => None,
    }
}

/// Whether the queue is that one.
fn is_queue(queue: usize, at: Option<u8>) -> bool
    ensures { result ≡ is_queue queue at }
{
    match at {
        Some(it) => it as usize == queue,
        None => false,
    }
}

/// The name by which the style means the line to it.
pub(crate) fn visit_class(event: Event) -> &'static str
    ensures { result.now ≡ visit_class event }
{
    match event {
        Event::Put(_, _) => "visit put",
        Event::Got(_, _) => "visit got",
        _ => "visit none",
    }
}

/// What an event puts there or takes, or why it does neither.
pub(crate) fn visit_words(alloc: Global, event: Event) -> Result<String, AllocError>
    ensures { IfOk result (λ text. string_bytes text ≡ visit_words event) }
{
    match event {
        Event::Put(_, value) => format!(in alloc; "+{value}"),
        Event::Got(_, value) => format!(in alloc; "-{value}"),
        Event::Refused(_) => String::from_str(alloc, "full"),
        Event::Empty(_) => String::from_str(alloc, "empty"),
        _ => Ok(String::new(alloc)),
    }
}

/// How many of these events are at that queue.
pub(crate) fn count_at(queue: usize, list: &[Occurrence]) -> usize
    requires { length list.now < 2 ^ 64 }
    ensures count { result ≡ count_at queue 0 list.now }
    ensures few { result ≤ length list.now }
{
    let mut count = 0;
    let mut rest = list;
    while let Some((it, more)) = rest.split_first() {
        if is_queue(queue, queue_at(it.event)) {
            count += 1;
        }
        rest = more;
    }
    count
}

/// How often, in words.
pub(crate) fn times_words(alloc: Global, count: usize) -> Result<String, AllocError>
    ensures { IfOk result (λ text. string_bytes text ≡ times_words count) }
{
    format!(in alloc; "{count} times")
}
