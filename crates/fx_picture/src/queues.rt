//! The lanes of queues, and what events do at them. How many elements a queue holds after an event is drawn where that is
//! told: the order of the list need not be that in which it was used.
ghost use Rattle.std.specs.Prelude.{◌≡◌, ◌≤◌, ◌<◌, ◌++◌, ◌∷◌, [], length, OnOk, IfOk, codes, string_bytes};
ghost use Rattle.fx_report.specs.Text.{names_of};
ghost use Rattle.fx_svg.specs.Content.{rendering};
ghost use Rattle.fx_picture.specs.Picture.{queue_lane, queue_lanes_from, held_label, visit_line, visited, visit};
ghost use Rattle.fx_picture.specs.Picture.{visit_of, times, times_of, all_times, visits_of, visits_in};

use crate::drawn::{Drawn, place_of};
use crate::elements::{Point, push_label, push_line};
use crate::lanes::{push_names, push_upright};
use crate::layout::{BASE, MOST_EVENTS, MOST_LANES, lane_of, lane_x, row_y};
use crate::sheet::in_row;
use crate::stood::{Stood, told_held};
use crate::visit::{count_at, queue_at, times_words, visit_class, visit_words};
use fx_model::FiberReport;
use fx_order::Occurrence;
use fx_text::QueueDecl;
use std::alloc::{AllocError, Global};

/// How far right of a queue's lane the words stand that say what is done there.
pub(crate) const BESIDE: u64 = 10;

/// Appends the lane of a queue, beside so many rows.
fn push_queue_lane(
    alloc: Global,
    text: &mut String,
    rows: u32,
    lane: usize,
    queue: &QueueDecl,
) -> Result<(), AllocError>
    requires { lane ≤ MOST_LANES }
    ensures { OnOk result (string_bytes text.new ≡ string_bytes text.old
        ++ rendering (queue_lane rows lane (string_bytes queue.now.name))) }
{
    let mut name = String::from_str(alloc, "queue ")?;
    name.push_str(&queue.name)?;
    push_upright(text, "queue", rows, lane)?;
    push_names(text, lane, rows, &name)
}

/// Appends the lanes of these queues, beside so many rows, from this lane on.
pub(crate) fn push_queue_lanes(
    alloc: Global,
    text: &mut String,
    rows: u32,
    first: usize,
    queues: &[QueueDecl],
) -> Result<(), AllocError>
    requires first { first ≤ MOST_EVENTS }
    requires queues { length queues.now ≤ MOST_EVENTS }
    ensures { OnOk result (string_bytes text.new ≡ string_bytes text.old
        ++ rendering (queue_lanes_from rows first (names_of queues.now))) }
{
    let mut lane = first;
    let mut rest = queues;
    while let Some((queue, more)) = rest.split_first() {
        push_queue_lane(alloc, text, rows, lane, queue)?;
        lane += 1;
        rest = more;
    }
    Ok(())
}

/// Appends the line from an event to that queue.
fn push_way(
    text: &mut String,
    fibers: &[FiberReport],
    from: Drawn,
    queue: u8,
) -> Result<(), AllocError>
    requires { length fibers.now ≤ MOST_EVENTS }
    ensures { OnOk result (string_bytes text.new ≡ string_bytes text.old
        ++ rendering (visit_line fibers.now from queue)) }
{
    let begins = place_of(fibers, from);
    let ends = Point {
        x: lane_x(fibers.len() + queue as usize),
        y: row_y(from.row),
    };
    push_line(text, visit_class(from.event.event), begins, ends)
}

/// Appends how many elements a queue holds, on its lane, if that is told.
fn push_held(
    alloc: Global,
    text: &mut String,
    lane: usize,
    row: u32,
    held: Option<usize>,
) -> Result<(), AllocError>
    requires { lane ≤ MOST_LANES }
    ensures { OnOk result (string_bytes text.new ≡ string_bytes text.old
        ++ rendering (held_label lane row held)) }
{
    match held {
        Some(count) => {
            let words = format!(in alloc; "{count}")?;
            let (x, y) = (lane_x(lane), row_y(row) + BASE);
            push_label(text, "holds", Point { x, y }, &words)
        }
        None => Ok(()),
    }
}

/// Appends what an event does at that queue, and how many elements that holds then, if it is told.
fn push_visited(
    alloc: Global,
    text: &mut String,
    stood: &[Stood],
    fibers: &[FiberReport],
    from: Drawn,
    queue: u8,
) -> Result<(), AllocError>
    requires { length fibers.now ≤ MOST_EVENTS }
    ensures { OnOk result (string_bytes text.new ≡ string_bytes text.old
        ++ rendering (visited stood.now fibers.now from queue)) }
{
    let words = visit_words(alloc, from.event.event)?;
    let lane = fibers.len() + queue as usize;
    let (x, y) = (lane_x(lane) + BESIDE, row_y(from.row) + BASE);
    push_label(text, "visited", Point { x, y }, &words)?;
    let held = told_held(stood, from.event.fiber, from.event.place);
    push_held(alloc, text, lane, from.row, held)
}

/// Appends the line from an event to that queue, and what the event does there.
fn push_visit(
    alloc: Global,
    text: &mut String,
    stood: &[Stood],
    fibers: &[FiberReport],
    from: Drawn,
    queue: u8,
) -> Result<(), AllocError>
    requires { length fibers.now ≤ MOST_EVENTS }
    ensures { OnOk result (string_bytes text.new ≡ string_bytes text.old
        ++ rendering (visit stood.now fibers.now from queue)) }
{
    push_way(text, fibers, from, queue)?;
    push_visited(alloc, text, stood, fibers, from, queue)
}

/// Appends what an event does at a queue, if it is at one.
fn push_visit_of(
    alloc: Global,
    text: &mut String,
    stood: &[Stood],
    fibers: &[FiberReport],
    from: Drawn,
) -> Result<(), AllocError>
    requires { length fibers.now ≤ MOST_EVENTS }
    ensures { OnOk result (string_bytes text.new ≡ string_bytes text.old
        ++ rendering (visit_of stood.now fibers.now from)) }
{
    match queue_at(from.event.event) {
        Some(queue) => push_visit(alloc, text, stood, fibers, from, queue),
        None => Ok(()),
    }
}

/// Appends the line from the mark of several events of that fiber to that queue, with how many of them are there.
fn push_times(
    alloc: Global,
    text: &mut String,
    fibers: &[FiberReport],
    row: u32,
    fiber: u32,
    queue: usize,
    count: usize,
) -> Result<(), AllocError>
    requires fibers { length fibers.now ≤ MOST_EVENTS }
    requires queue { queue ≤ MOST_EVENTS }
    ensures { OnOk result (string_bytes text.new ≡ string_bytes text.old
        ++ rendering (times fibers.now row fiber queue count)) }
{
    let words = times_words(alloc, count)?;
    let from = lane_x(lane_of(fibers, fiber));
    let to = lane_x(fibers.len() + queue);
    let y = row_y(row);
    push_line(text, "visit", Point { x: from, y }, Point { x: to, y })?;
    let beside = Point {
        x: to + BESIDE,
        y: y + BASE,
    };
    push_label(text, "visited", beside, &words)
}

/// Appends that line, if some of these events are at that queue.
fn push_times_of(
    alloc: Global,
    text: &mut String,
    fibers: &[FiberReport],
    row: u32,
    fiber: u32,
    list: &[Occurrence],
    queue: usize,
) -> Result<(), AllocError>
    requires fibers { length fibers.now ≤ MOST_EVENTS }
    requires queue { queue ≤ MOST_EVENTS }
    ensures { OnOk result (string_bytes text.new ≡ string_bytes text.old
        ++ rendering (times_of fibers.now row fiber list.now queue)) }
{
    let count = count_at(queue, list);
    if count == 0 {
        return Ok(());
    }
    push_times(alloc, text, fibers, row, fiber, queue, count)
}

/// Appends these lines for so many queues.
fn push_all_times(
    alloc: Global,
    text: &mut String,
    fibers: &[FiberReport],
    row: u32,
    fiber: u32,
    list: &[Occurrence],
    queues: usize,
) -> Result<(), AllocError>
    requires fibers { length fibers.now ≤ MOST_EVENTS }
    requires queues { queues ≤ MOST_EVENTS }
    ensures { OnOk result (string_bytes text.new ≡ string_bytes text.old
        ++ rendering (all_times fibers.now row fiber list.now queues)) }
{
    for queue in 0..queues {
        push_times_of(alloc, text, fibers, row, fiber, list, queue)?;
    }
    Ok(())
}

/// Appends what the events of a row do at so many queues.
fn push_visits_of(
    alloc: Global,
    text: &mut String,
    stood: &[Stood],
    fibers: &[FiberReport],
    queues: usize,
    row: u32,
    list: &[Occurrence],
) -> Result<(), AllocError>
    requires fibers { length fibers.now ≤ MOST_EVENTS }
    requires queues { queues ≤ MOST_EVENTS }
    ensures { OnOk result (string_bytes text.new ≡ string_bytes text.old
        ++ rendering (visits_of stood.now fibers.now queues row list.now)) }
{
    match list {
        [] => Ok(()),
        [event] => push_visit_of(alloc, text, stood, fibers, Drawn { row, event: *event }),
        [first, ..] => push_all_times(alloc, text, fibers, row, first.fiber, list, queues),
    }
}

/// Appends what the events of so many rows do at so many queues.
pub(crate) fn push_visits(
    alloc: Global,
    text: &mut String,
    stood: &[Stood],
    fibers: &[FiberReport],
    queues: usize,
    drawn: &[Drawn],
    rows: u32,
) -> Result<(), AllocError>
    requires fibers { length fibers.now ≤ MOST_EVENTS }
    requires queues { queues ≤ MOST_EVENTS }
    ensures { OnOk result (string_bytes text.new ≡ string_bytes text.old
        ++ rendering (visits_in stood.now fibers.now queues drawn.now rows)) }
{
    for row in 0..rows {
        let list = in_row(alloc, row, drawn)?;
        push_visits_of(alloc, text, stood, fibers, queues, row, &list)?;
    }
    Ok(())
}
