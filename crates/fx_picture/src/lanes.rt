//! The lanes of fibers.
ghost use Rattle.std.specs.Prelude.{◌≡◌, ◌≤◌, ◌<◌, ◌++◌, codes, length, OnOk, string_bytes};
ghost use Rattle.fx_report.specs.Text.{names_of};
ghost use Rattle.fx_svg.specs.Content.{rendering};
ghost use Rattle.fx_picture.specs.Layout.{lane_x};
ghost use Rattle.fx_picture.specs.Labels.{fiber_words, wait_of};
ghost use Rattle.fx_picture.specs.Elements.{label};
ghost use Rattle.fx_picture.specs.Handles.{view_handles};
ghost use Rattle.fx_picture.specs.Picture.{upright, names_again, lane_names, state_label, wait_labels, foot, lane_content, lanes_from};

use crate::elements::{Point, push_label, push_line};
use crate::handle::Handle;
use crate::labels::{end_words, fiber_words, wait_of, wait_words};
use crate::layout::{
    ABOVE, AGAIN, BANDS, BELOW, BOTTOM, MOST_EVENTS, MOST_LANES, NEXT_ABOVE, NEXT_BELOW, TOP,
    band_y, lane_x, row_y,
};
use crate::look::end_class;
use fx_model::{FiberReport, Source};
use fx_report::Blocked;
use fx_text::QueueDecl;
use std::alloc::{AllocError, Global};

/// Appends a line from top to bottom, beside so many rows.
pub(crate) fn push_upright(
    text: &mut String,
    class: &str,
    rows: u32,
    lane: usize,
) -> Result<(), AllocError>
    requires { lane ≤ MOST_LANES }
    ensures { OnOk result (string_bytes text.new ≡ string_bytes text.old
        ++ rendering (upright class.now rows lane)) }
{
    let x = lane_x(lane);
    let bottom = row_y(rows) + BOTTOM;
    push_line(text, class, Point { x, y: TOP }, Point { x, y: bottom })
}

/// Appends so often again what a lane is called, each below some rows more.
fn push_names_again(
    text: &mut String,
    lane: usize,
    bands: u32,
    words: &str,
) -> Result<(), AllocError>
    requires lane { lane ≤ MOST_LANES }
    requires bands { bands ≤ BANDS }
    ensures { OnOk result (string_bytes text.new ≡ string_bytes text.old
        ++ rendering (names_again lane words.now bands)) }
{
    for band in 0..bands {
        let at = Point {
            x: lane_x(lane),
            y: band_y(band),
        };
        push_label(text, "again", at, words)?;
    }
    Ok(())
}

/// Appends what a lane is called, above it and beside so many rows.
pub(crate) fn push_names(
    text: &mut String,
    lane: usize,
    rows: u32,
    words: &str,
) -> Result<(), AllocError>
    requires { lane ≤ MOST_LANES }
    ensures { OnOk result (string_bytes text.new ≡ string_bytes text.old
        ++ rendering (lane_names lane rows words.now)) }
{
    let at = Point {
        x: lane_x(lane),
        y: ABOVE,
    };
    push_label(text, "name", at, words)?;
    push_names_again(text, lane, rows / AGAIN, words)
}

/// Appends at that height how a fiber is at the end.
fn push_state(
    alloc: Global,
    text: &mut String,
    lane: usize,
    y: u64,
    fiber: &FiberReport,
) -> Result<(), AllocError>
    requires { lane ≤ MOST_LANES }
    ensures { OnOk result (string_bytes text.new ≡ string_bytes text.old
        ++ rendering (state_label lane y fiber.now)) }
{
    let words = end_words(alloc, fiber)?;
    let x = lane_x(lane);
    push_label(text, end_class(fiber.state), Point { x, y }, &words)
}

/// Appends the number of a fiber and what it is called.
fn push_name(
    alloc: Global,
    text: &mut String,
    handles: &[Handle],
    lane: usize,
    rows: u32,
    fiber: &FiberReport,
) -> Result<(), AllocError>
    requires { lane ≤ MOST_LANES }
    ensures { OnOk result (string_bytes text.new ≡ string_bytes text.old
        ++ rendering (lane_names lane rows (fiber_words (view_handles handles.now) fiber.now))) }
{
    let words = fiber_words(alloc, handles, fiber)?;
    push_names(text, lane, rows, &words)
}

/// Appends what a fiber waits for.
fn push_wait(
    alloc: Global,
    text: &mut String,
    queues: &[QueueDecl],
    rows: u32,
    lane: usize,
    source: Source,
) -> Result<(), AllocError>
    requires { lane ≤ MOST_LANES }
    ensures { OnOk result (string_bytes text.new ≡ string_bytes text.old
        ++ rendering (wait_labels (names_of queues.now) rows lane source)) }
{
    let words = wait_words(alloc, queues, source)?;
    let x = lane_x(lane);
    let y = row_y(rows) + BELOW;
    let next = row_y(rows) + NEXT_BELOW;
    push_label(text, "waits", Point { x, y }, "waits for")?;
    push_label(text, "waits", Point { x, y: next }, &words)
}

/// Appends what stands below the lane of a fiber, which waits for this or for nothing.
fn push_foot_of(
    alloc: Global,
    text: &mut String,
    queues: &[QueueDecl],
    rows: u32,
    lane: usize,
    fiber: &FiberReport,
    source: Option<Source>,
) -> Result<(), AllocError>
    requires { lane ≤ MOST_LANES }
    ensures { OnOk result (string_bytes text.new ≡ string_bytes text.old
        ++ rendering (foot (names_of queues.now) rows lane fiber.now source)) }
{
    match source {
        Some(source) => push_wait(alloc, text, queues, rows, lane, source),
        None => push_state(alloc, text, lane, row_y(rows) + BELOW, fiber),
    }
}

/// Appends what stands below the lane of a fiber.
fn push_foot(
    alloc: Global,
    text: &mut String,
    queues: &[QueueDecl],
    blocked: &[Blocked],
    rows: u32,
    lane: usize,
    fiber: &FiberReport,
) -> Result<(), AllocError>
    requires { lane ≤ MOST_LANES }
    ensures { OnOk result (string_bytes text.new ≡ string_bytes text.old ++ rendering
        (foot (names_of queues.now) rows lane fiber.now (wait_of blocked.now fiber.now.id))) }
{
    let source = wait_of(blocked, fiber.id);
    push_foot_of(alloc, text, queues, rows, lane, fiber, source)
}

/// Appends the lane of a fiber, beside so many rows.
fn push_lane(
    alloc: Global,
    text: &mut String,
    queues: &[QueueDecl],
    handles: &[Handle],
    blocked: &[Blocked],
    rows: u32,
    lane: usize,
    fiber: &FiberReport,
) -> Result<(), AllocError>
    requires { lane ≤ MOST_LANES }
    ensures { OnOk result (string_bytes text.new ≡ string_bytes text.old
        ++ rendering (lane_content (names_of queues.now) rows lane (view_handles handles.now) blocked.now fiber.now)) }
{
    push_upright(text, "lane", rows, lane)?;
    push_name(alloc, text, handles, lane, rows, fiber)?;
    push_state(alloc, text, lane, NEXT_ABOVE, fiber)?;
    push_foot(alloc, text, queues, blocked, rows, lane, fiber)
}

/// Appends the lanes of these fibers, beside so many rows.
pub(crate) fn push_lanes(
    alloc: Global,
    text: &mut String,
    queues: &[QueueDecl],
    handles: &[Handle],
    blocked: &[Blocked],
    rows: u32,
    fibers: &[FiberReport],
) -> Result<(), AllocError>
    requires { length fibers.now ≤ MOST_EVENTS }
    ensures { OnOk result (string_bytes text.new ≡ string_bytes text.old
        ++ rendering (lanes_from (names_of queues.now) rows (view_handles handles.now) blocked.now 0 fibers.now)) }
{
    let mut lane = 0;
    let mut rest = fibers;
    while let Some((fiber, more)) = rest.split_first() {
        push_lane(alloc, text, queues, handles, blocked, rows, lane, fiber)?;
        lane += 1;
        rest = more;
    }
    Ok(())
}
