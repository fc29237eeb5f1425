//! Whether causes come first in a list of events, judged by the events alone.
use fx_order::Occurrence;
use fx_term::{Event, Outcome};

fn count(list: &[Occurrence], event: Event) -> usize {
    list.iter().filter(|it| it.event == event).count()
}

/// How the fiber has ended, in this list.
fn outcome(list: &[Occurrence], fiber: u32) -> Option<Outcome> {
    for it in list {
        if let Event::Ended(outcome) = it.event {
            if it.fiber == fiber {
                return Some(outcome);
            }
        }
    }
    None
}

fn has_some_end(list: &[Occurrence]) -> bool {
    list.iter().any(|it| matches!(it.event, Event::Ended(_)))
}

/// Whether just the earlier events of its fiber come before it, and before the first one the fiber's start.
fn comes_in_turn(before: &[Occurrence], it: &Occurrence) -> bool {
    let place = before
        .iter()
        .filter(|other| other.fiber == it.fiber)
        .count();
    let has_begun = place > 0 || it.fiber == 0 || count(before, Event::Start(it.fiber)) > 0;
    it.place == place && has_begun
}

/// Whether what the event tells has happened before. Which of two fibers a `First` found, its event does
/// not say; so there some end must come before.
fn has_cause(before: &[Occurrence], it: &Occurrence, outside: &[u32]) -> bool {
    match it.event {
        Event::Got(queue, value) => {
            count(before, it.event) < count(before, Event::Put(queue, value))
        }
        Event::Joined(fiber, found) => outcome(before, fiber) == Some(found),
        Event::Awaited(fiber) => outcome(before, fiber).is_some(),
        Event::First(_) => has_some_end(before),
        Event::Seen => {
            outside.contains(&it.fiber) || count(before, Event::Request(it.fiber)) > 0
        }
        _ => true,
    }
}

/// The first event of the list that comes out of its fiber's order, or before what it stands on, where
/// these fibers were requested from outside. The time is the square of the list's length, so it is for
/// reports of some thousand events at most.
pub fn first_before_cause(list: &[Occurrence], outside: &[u32]) -> Option<Occurrence> {
    for (i, it) in list.iter().enumerate() {
        let before = &list[..i];
        if !comes_in_turn(before, it) || !has_cause(before, it, outside) {
            return Some(*it);
        }
    }
    None
}
