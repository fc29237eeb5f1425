//! The marks of events.
ghost use Rattle.std.specs.Prelude.{◌≡◌, ◌≤◌, ◌++◌, length, OnOk, string_bytes};
ghost use Rattle.fx_report.specs.Text.{names_of};
ghost use Rattle.fx_svg.specs.Content.{rendering};
ghost use Rattle.fx_picture.specs.Picture.{mark, count_label, fold_inside, fold, mark_of, marks_in};

use crate::drawn::Drawn;
use crate::elements::{Point, push_box, push_label};
use crate::labels::{fold_words, mark_words};
use crate::layout::{BASE, MOST_EVENTS, MOST_LANES, lane_of, lane_x, row_y};
use crate::look::event_class;
use crate::sheet::in_row;
use crate::stood::Stood;
use fx_model::FiberReport;
use fx_order::Occurrence;
use fx_svg::{Attribute, Key, Tag, Value, push_element, push_end_tag, push_start_tag};
use fx_text::QueueDecl;
use std::alloc::{AllocError, Global};

/// The radius of a mark.
pub(crate) const RADIUS: u64 = 5;

/// Appends the mark of an event, in its row and in its fiber's lane.
fn push_mark(
    alloc: Global,
    text: &mut String,
    queues: &[QueueDecl],
    stood: &[Stood],
    fibers: &[FiberReport],
    row: u32,
    it: Occurrence,
) -> Result<(), AllocError>
    requires { length fibers.now ≤ MOST_EVENTS }
    ensures { OnOk result (string_bytes text.new ≡ string_bytes text.old
        ++ rendering (mark (names_of queues.now) stood.now fibers.now row it)) }
{
    let place = [
        Attribute {
            key: Key::Class,
            value: Value::Words(event_class(it.event)),
        },
        Attribute {
            key: Key::CenterX,
            value: Value::Number(lane_x(lane_of(fibers, it.fiber))),
        },
        Attribute {
            key: Key::CenterY,
            value: Value::Number(row_y(row)),
        },
        Attribute {
            key: Key::Radius,
            value: Value::Number(RADIUS),
        },
    ];
    let words = mark_words(alloc, queues, stood, it)?;
    push_start_tag(text, Tag::Circle, &place)?;
    push_element(text, Tag::Title, &[], &words)?;
    push_end_tag(text, Tag::Circle)
}

/// Appends how many events a mark of several has.
fn push_count(
    alloc: Global,
    text: &mut String,
    lane: usize,
    row: u32,
    count: usize,
) -> Result<(), AllocError>
    requires { lane ≤ MOST_LANES }
    ensures { OnOk result (string_bytes text.new ≡ string_bytes text.old
        ++ rendering (count_label lane row count)) }
{
    let counted = format!(in alloc; "{count}")?;
    let (x, y) = (lane_x(lane), row_y(row) + BASE);
    push_label(text, "count", Point { x, y }, &counted)
}

/// Appends what stands in the mark of these events: their words as a title, a box, and how many they are.
fn push_fold_inside(
    alloc: Global,
    text: &mut String,
    queues: &[QueueDecl],
    stood: &[Stood],
    lane: usize,
    row: u32,
    list: &[Occurrence],
) -> Result<(), AllocError>
    requires { lane ≤ MOST_LANES }
    ensures { OnOk result (string_bytes text.new ≡ string_bytes text.old
        ++ rendering (fold_inside (names_of queues.now) stood.now lane row list.now)) }
{
    let title = fold_words(alloc, queues, stood, list)?;
    let center = Point {
        x: lane_x(lane),
        y: row_y(row),
    };
    push_element(text, Tag::Title, &[], &title)?;
    push_box(text, center)?;
    push_count(alloc, text, lane, row, list.len())
}

/// Appends the mark of these events, which stand in this row of that lane.
fn push_fold(
    alloc: Global,
    text: &mut String,
    queues: &[QueueDecl],
    stood: &[Stood],
    lane: usize,
    row: u32,
    list: &[Occurrence],
) -> Result<(), AllocError>
    requires { lane ≤ MOST_LANES }
    ensures { OnOk result (string_bytes text.new ≡ string_bytes text.old
        ++ rendering (fold (names_of queues.now) stood.now lane row list.now)) }
{
    let class = [Attribute {
        key: Key::Class,
        value: Value::Words("fold"),
    }];
    push_start_tag(text, Tag::Group, &class)?;
    push_fold_inside(alloc, text, queues, stood, lane, row, list)?;
    push_end_tag(text, Tag::Group)
}

/// Appends the mark of the events of a row.
fn push_mark_of(
    alloc: Global,
    text: &mut String,
    queues: &[QueueDecl],
    stood: &[Stood],
    fibers: &[FiberReport],
    row: u32,
    list: &[Occurrence],
) -> Result<(), AllocError>
    requires { length fibers.now ≤ MOST_EVENTS }
    ensures { OnOk result (string_bytes text.new ≡ string_bytes text.old
        ++ rendering (mark_of (names_of queues.now) stood.now fibers.now row list.now)) }
{
    match list {
        [] => Ok(()),
        [event] => push_mark(alloc, text, queues, stood, fibers, row, *event),
        [first, ..] => {
            let lane = lane_of(fibers, first.fiber);
            push_fold(alloc, text, queues, stood, lane, row, list)
        }
    }
}

/// Appends the marks of so many rows of these events.
pub(crate) fn push_marks(
    alloc: Global,
    text: &mut String,
    queues: &[QueueDecl],
    stood: &[Stood],
    fibers: &[FiberReport],
    drawn: &[Drawn],
    rows: u32,
) -> Result<(), AllocError>
    requires { length fibers.now ≤ MOST_EVENTS }
    ensures { OnOk result (string_bytes text.new ≡ string_bytes text.old
        ++ rendering (marks_in (names_of queues.now) stood.now fibers.now drawn.now rows)) }
{
    for row in 0..rows {
        let list = in_row(alloc, row, drawn)?;
        push_mark_of(alloc, text, queues, stood, fibers, row, &list)?;
    }
    Ok(())
}
