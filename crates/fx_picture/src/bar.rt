//! Bars: what goes on in a fiber from one of its events to another.
ghost use Rattle.std.specs.Prelude.{◌≡◌};
ghost use Rattle.fx_picture.specs.Bars.{life_at, bar_at, is_closed_before, mask_at, is_end, is_release};

use crate::drawn::Drawn;
use crate::stood::{Stood, is_told_closed, is_told_open};
use fx_order::Occurrence;
use fx_term::Event;
use std::alloc::{AllocError, Global};

/// What goes on in a fiber.
#[derive(Clone, Copy, PartialEq, Eq, Debug)]
pub(crate) enum Bar {
    /// It lives, from its first event to its end.
    Life,
    /// Its clean-ups run, from where it is canceled to its end.
    Unwinding,
    /// It holds its resource of this number, until the release of that has ended.
    Holding(u64),
    /// No cancellation acts, from an event at a closed place to one at an open place, or to its end.
    Closed,
}

/// How far right of its lane the bar of a first resource stands, and left of it that of a closed place; and how far from one
/// resource to the next.
pub(crate) const ASIDE: u64 = 8;

pub(crate) const ASUNDER: u64 = 5;

/// How many resources have bars abreast.
pub(crate) const ABREAST: u64 = 4;

/// The life that begins at an event in this place of its fiber.
pub(crate) fn life_at(place: usize) -> Option<Bar>
    ensures { result ≡ life_at place }
{
    if place == 0 { Some(Bar::Life) } else { None }
}

/// What else begins at such an event.
pub(crate) fn bar_at(event: Event) -> Option<Bar>
    ensures { result ≡ bar_at event }
{
    match event {
        Event::Cancelled => Some(Bar::Unwinding),
        Event::Acquired(resource) => Some(Bar::Holding(resource)),
        _ => None,
    }
}

/// Whether the event before that of its fiber, if there is one, is told to be at a closed place.
fn is_closed_before(stood: &[Stood], fiber: u32, place: usize) -> bool
    ensures { result ≡ is_closed_before stood.now fiber place }
{
    if place == 0 {
        false
    } else {
        is_told_closed(stood, fiber, place - 1)
    }
}

/// The closed place that begins at the event in that place of the fiber, where fibers stood there.
pub(crate) fn mask_at(stood: &[Stood], fiber: u32, place: usize) -> Option<Bar>
    ensures { result ≡ mask_at stood.now fiber place }
{
    if is_told_closed(stood, fiber, place) && !is_closed_before(stood, fiber, place) {
        Some(Bar::Closed)
    } else {
        None
    }
}

fn is_end(event: Event) -> bool
    ensures { result ≡ is_end event }
{
    matches!(event, Event::Ended(_))
}

/// Whether the event is the end of the release of that resource.
fn is_release(resource: u64, event: Event) -> bool
    ensures { result ≡ is_release resource event }
{
    match event {
        Event::End(released) => released == resource,
        _ => false,
    }
}

impl Bar {
    ghost use Rattle.std.specs.Prelude.{◌≡◌, ◌≤◌, ◌^◌, IfOk, string_bytes};
    ghost use Rattle.fx_picture.specs.Bars.{closes, closing_row, beside, bar_class, bar_words};

    /// Whether it ends at this event of its fiber.
    fn closes(self, stood: &[Stood], it: Occurrence) -> bool
        ensures { result ≡ closes stood.now self it }
    {
        match self {
            Bar::Life | Bar::Unwinding => is_end(it.event),
            Bar::Holding(resource) => is_release(resource, it.event),
            Bar::Closed => is_end(it.event) || is_told_open(stood, it.fiber, it.place),
        }
    }

    /// The row where it ends, if it does: that of the first of these events of that fiber that closes it.
    pub(crate) fn closing_row(self, stood: &[Stood], fiber: u32, list: &[Drawn]) -> Option<u32>
        ensures { result ≡ closing_row stood.now fiber self list.now }
    {
        let mut rest = list;
        while let Some((it, more)) = rest.split_first() {
            if it.event.fiber == fiber && self.closes(stood, it.event) {
                return Some(it.row);
            }
            rest = more;
        }
        None
    }

    /// Where it stands, if its lane has this middle.
    pub(crate) fn beside(self, middle: u64) -> u64
        requires right { ASIDE ≤ middle }
        requires left { middle ≤ 2 ^ 32 }
        ensures { result ≡ beside self middle }
    {
        match self {
            Bar::Life | Bar::Unwinding => middle,
            Bar::Holding(resource) => middle + ASIDE + resource % ABREAST * ASUNDER,
            Bar::Closed => middle - ASIDE,
        }
    }

    /// The name by which the style means one that ends in that row, or does not end.
    pub(crate) fn class(self, closing: Option<u32>) -> &'static str
        ensures { result.now ≡ bar_class self closing }
    {
        match (self, closing) {
            (Bar::Life, Some(_)) => "life",
            (Bar::Life, None) => "life open",
            (Bar::Unwinding, Some(_)) => "unwinding",
            (Bar::Unwinding, None) => "unwinding open",
            (Bar::Holding(_), Some(_)) => "holding",
            (Bar::Holding(_), None) => "holding open",
            (Bar::Closed, Some(_)) => "masked",
            (Bar::Closed, None) => "masked open",
        }
    }

    /// What it says where the pointer rests on it.
    pub(crate) fn words(self, alloc: Global) -> Result<String, AllocError>
        ensures { IfOk result (λ text. string_bytes text ≡ bar_words self) }
    {
        match self {
            Bar::Life => String::from_str(alloc, "from its first event to its end"),
            Bar::Unwinding => String::from_str(alloc, "canceled: its clean-ups run"),
            Bar::Holding(resource) => format!(in alloc; "holds its resource {resource}"),
            Bar::Closed => String::from_str(alloc, "closed: no cancellation acts"),
        }
    }
}
