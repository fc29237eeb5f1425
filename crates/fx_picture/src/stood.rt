//! What is told of fibers as they showed their events.
ghost use Rattle.std.specs.Prelude.{◌≡◌, ◌++◌, OnOk, string_bytes};
ghost use Rattle.fx_picture.specs.Stood.{stood_at, is_told_closed, is_told_open, told_cause, told_held};
ghost use Rattle.fx_picture.specs.Stood.{position_words, open_words, held_words, stood_words};

use fx_order::Occurrence;
use fx_text::Position;
use std::alloc::AllocError;

/// An event of a run: the number of its fiber, and its place among what that showed.
#[derive(Clone, Copy, PartialEq, Eq, Debug)]
pub struct EventAt {
    pub fiber: u32,
    pub place: usize,
}

/// Where a fiber stood when it showed an event: the number of the fiber, where the form of that step stands in the script's
/// text, if that is known, and whether a request would have been seen there. And what a report does not say: which event
/// caused this one, where its own words do not name that; and how many elements its queue held then, where it is at one.
#[derive(Clone, Copy, PartialEq, Eq, Debug)]
pub struct Stood {
    pub fiber: u32,
    pub position: Option<Position>,
    pub is_open: bool,
    pub cause: Option<EventAt>,
    pub held: Option<usize>,
}

/// What is told of the event in that place of the fiber, if something is: the first of these of a fiber is told of its first
/// event, and so on.
fn stood_at(stood: &[Stood], fiber: u32, place: usize) -> Option<Stood>
    ensures { result ≡ stood_at stood.now fiber place }
{
    let mut left = place;
    let mut rest = stood;
    while let Some((it, more)) = rest.split_first() {
        if it.fiber == fiber {
            if left == 0 {
                return Some(*it);
            }
            left -= 1;
        }
        rest = more;
    }
    None
}

/// Whether that event is told to be at a closed place.
pub(crate) fn is_told_closed(stood: &[Stood], fiber: u32, place: usize) -> bool
    ensures { result ≡ is_told_closed (stood_at stood.now fiber place) }
{
    match stood_at(stood, fiber, place) {
        Some(it) => !it.is_open,
        None => false,
    }
}

/// Whether it is told to be at an open one.
pub(crate) fn is_told_open(stood: &[Stood], fiber: u32, place: usize) -> bool
    ensures { result ≡ is_told_open (stood_at stood.now fiber place) }
{
    match stood_at(stood, fiber, place) {
        Some(it) => it.is_open,
        None => false,
    }
}

/// The event that is told to have caused that one, if one is.
pub(crate) fn told_cause(stood: &[Stood], fiber: u32, place: usize) -> Option<EventAt>
    ensures { result ≡ told_cause (stood_at stood.now fiber place) }
{
    match stood_at(stood, fiber, place) {
        Some(it) => it.cause,
        None => None,
    }
}

/// How many elements its queue is told to hold after that event, if it is.
pub(crate) fn told_held(stood: &[Stood], fiber: u32, place: usize) -> Option<usize>
    ensures { result ≡ told_held (stood_at stood.now fiber place) }
{
    match stood_at(stood, fiber, place) {
        Some(it) => it.held,
        None => None,
    }
}

/// Appends where a form stands, if that is known.
fn push_position(text: &mut String, position: Option<Position>) -> Result<(), AllocError>
    ensures { OnOk result
        (string_bytes text.new ≡ string_bytes text.old ++ position_words position) }
{
    match position {
        Some(Position { line, column }) => write!(text, " at {line}:{column}"),
        None => Ok(()),
    }
}

/// Appends a word where a request would not be seen.
fn push_open(text: &mut String, is_open: bool) -> Result<(), AllocError>
    ensures { OnOk result (string_bytes text.new ≡ string_bytes text.old ++ open_words is_open) }
{
    if is_open {
        Ok(())
    } else {
        text.push_str(" closed")
    }
}

/// Appends how many elements a queue holds then, if that is told.
fn push_held(text: &mut String, held: Option<usize>) -> Result<(), AllocError>
    ensures { OnOk result (string_bytes text.new ≡ string_bytes text.old ++ held_words held) }
{
    match held {
        Some(count) => write!(text, " holds {count}"),
        None => Ok(()),
    }
}

/// Appends where the fiber stood when it showed this event, if that is told.
pub(crate) fn push_stood(
    text: &mut String,
    stood: &[Stood],
    event: Occurrence,
) -> Result<(), AllocError>
    ensures { OnOk result
        (string_bytes text.new ≡ string_bytes text.old ++ stood_words (stood_at stood.now event.fiber event.place)) }
{
    match stood_at(stood, event.fiber, event.place) {
        Some(it) => {
            push_position(text, it.position)?;
            push_open(text, it.is_open)?;
            push_held(text, it.held)
        }
        None => Ok(()),
    }
}
