//! The picture of a run.
ghost use Rattle.std.specs.Prelude.{◌≡◌, ◌≤◌, ◌<◌, ◌++◌, ◌⊎◌, length, OnOk, IfOk, IfErr, string_bytes};
ghost use Rattle.fx_text.specs.View.{meaning};
ghost use Rattle.fx_report.specs.Text.{names_of, queue_names};
ghost use Rattle.fx_svg.specs.Content.{start_tag, rendering};
ghost use Rattle.fx_svg.specs.declared.tag.Tag.TheVariants.{Svg};
ghost use Rattle.fx_order.specs.Occurrences.{occurrences};
ghost use Rattle.fx_picture.specs.declared.fault.PictureFault.TheVariants.{TooLarge};
ghost use Rattle.fx_picture.specs.Folds.{view_sheet};
ghost use Rattle.fx_picture.specs.Handles.{view_handles};
ghost use Rattle.fx_picture.specs.Picture.{arrow_head, size, head, ground_of, figures_of, drawing, picture_text};
ghost use Rattle.fx_picture.specs.IsPicture.{IsPicture, IsTooLarge};

use crate::arrows::push_arrows;
use crate::bars::push_bars;
use crate::fault::PictureFault;
use crate::handle::Handle;
use crate::labels::count_words;
use crate::lanes::push_lanes;
use crate::layout::{MOST_EVENTS, MOST_LANES, height, lane_x};
use crate::legend::push_legend;
use crate::look::STYLE;
use crate::marks::push_marks;
use crate::queues::{push_queue_lanes, push_visits};
use crate::sheet::{Sheet, sheet_of};
use crate::stood::Stood;
use fx_model::{FiberReport, Report};
use fx_order::{Occurrence, order_by_stamp};
use fx_report::Blocked;
use fx_svg::{
    Attribute, Key, Tag, Value, push_element, push_empty_element, push_end_tag, push_start_tag,
};
use fx_text::{QueueDecl, Script};
use std::alloc::{AllocError, Global};

/// What a picture is called, and what it shows, for who does not see it.
pub(crate) const TITLE: &str = "A run of fibers";

pub(crate) const DESCRIPTION: &str = "Each fiber and each queue has a lane, and time goes down. \
    A mark is an event, an arrow goes from a cause to what it caused. \
    A lane that is dashed is that of a fiber that waits for good.";

/// Appends the head of an arrow, as the style means it.
fn push_arrow_head(text: &mut String) -> Result<(), AllocError>
    ensures { OnOk result (string_bytes text.new ≡ string_bytes text.old ++ rendering arrow_head) }
{
    let marker = [
        Attribute {
            key: Key::Id,
            value: Value::Words("head"),
        },
        Attribute {
            key: Key::ViewBox,
            value: Value::Words("0 0 8 8"),
        },
        Attribute {
            key: Key::PointX,
            value: Value::Number(12),
        },
        Attribute {
            key: Key::PointY,
            value: Value::Number(4),
        },
        Attribute {
            key: Key::MarkerWidth,
            value: Value::Number(8),
        },
        Attribute {
            key: Key::MarkerHeight,
            value: Value::Number(8),
        },
        Attribute {
            key: Key::Orient,
            value: Value::Words("auto-start-reverse"),
        },
    ];
    let way = [Attribute {
        key: Key::Way,
        value: Value::Words("M0 0L8 4L0 8Z"),
    }];
    push_start_tag(text, Tag::Marker, &marker)?;
    push_empty_element(text, Tag::Path, &way)?;
    push_end_tag(text, Tag::Marker)
}

/// Appends the start tag of a picture with so many lanes and rows.
fn push_start(text: &mut String, lanes: usize, rows: u32) -> Result<(), AllocError>
    requires { lanes ≤ MOST_LANES }
    ensures { OnOk result (string_bytes text.new ≡ string_bytes text.old
        ++ start_tag Svg (size lanes rows)) }
{
    let size = [
        Attribute {
            key: Key::Namespace,
            value: Value::Words("http://www.w3.org/2000/svg"),
        },
        Attribute {
            key: Key::Role,
            value: Value::Words("img"),
        },
        Attribute {
            key: Key::Width,
            value: Value::Number(lane_x(lanes)),
        },
        Attribute {
            key: Key::Height,
            value: Value::Number(height(rows)),
        },
    ];
    push_start_tag(text, Tag::Svg, &size)
}

/// Appends what a picture of so many fibers and events has beside what is drawn.
fn push_head(
    alloc: Global,
    text: &mut String,
    fibers: usize,
    events: usize,
) -> Result<(), AllocError>
    ensures { OnOk result
        (string_bytes text.new ≡ string_bytes text.old ++ rendering (head fibers events)) }
{
    let mut words = count_words(alloc, fibers, events)?;
    words.push_str(DESCRIPTION)?;
    push_element(text, Tag::Title, &[], TITLE)?;
    push_element(text, Tag::Description, &[], &words)?;
    push_element(text, Tag::Style, &[], STYLE)?;
    push_arrow_head(text)
}

/// Appends the lanes of these fibers and queues, and the bars beside them.
fn push_ground(
    alloc: Global,
    text: &mut String,
    queues: &[QueueDecl],
    stood: &[Stood],
    handles: &[Handle],
    blocked: &[Blocked],
    fibers: &[FiberReport],
    sheet: &Sheet,
) -> Result<(), AllocError>
    requires fibers { length fibers.now ≤ MOST_EVENTS }
    requires queues { length queues.now ≤ MOST_EVENTS }
    ensures { OnOk result (string_bytes text.new ≡ string_bytes text.old ++ rendering
        (ground_of (names_of queues.now) stood.now (view_handles handles.now) blocked.now fibers.now (view_sheet sheet.now))) }
{
    push_lanes(alloc, text, queues, handles, blocked, sheet.rows, fibers)?;
    push_queue_lanes(alloc, text, sheet.rows, fibers.len(), queues)?;
    push_bars(alloc, text, stood, fibers, sheet.rows, &sheet.drawn)
}

/// Appends what happens on the lanes of these fibers and queues.
fn push_figures(
    alloc: Global,
    text: &mut String,
    queues: &[QueueDecl],
    stood: &[Stood],
    fibers: &[FiberReport],
    sheet: &Sheet,
) -> Result<(), AllocError>
    requires fibers { length fibers.now ≤ MOST_EVENTS }
    requires queues { length queues.now ≤ MOST_EVENTS }
    requires events { length sheet.now.drawn.items ≤ MOST_EVENTS }
    ensures { OnOk result (string_bytes text.new ≡ string_bytes text.old ++ rendering
        (figures_of (names_of queues.now) stood.now fibers.now (view_sheet sheet.now))) }
{
    push_visits(
        alloc,
        text,
        stood,
        fibers,
        queues.len(),
        &sheet.drawn,
        sheet.rows,
    )?;
    push_arrows(text, stood, fibers, &sheet.drawn)?;
    push_marks(alloc, text, queues, stood, fibers, &sheet.drawn, sheet.rows)
}

/// Appends the picture of these events of these fibers, of which these are blocked.
fn push_drawing(
    alloc: Global,
    text: &mut String,
    queues: &[QueueDecl],
    stood: &[Stood],
    handles: &[Handle],
    blocked: &[Blocked],
    fibers: &[FiberReport],
    sheet: &Sheet,
) -> Result<(), AllocError>
    requires fibers { length fibers.now ≤ MOST_EVENTS }
    requires queues { length queues.now ≤ MOST_EVENTS }
    requires events { length sheet.now.drawn.items ≤ MOST_EVENTS }
    ensures { OnOk result (string_bytes text.new ≡ string_bytes text.old ++ rendering
        (drawing (names_of queues.now) stood.now (view_handles handles.now) blocked.now fibers.now (view_sheet sheet.now))) }
{
    push_start(text, fibers.len() + queues.len(), sheet.rows)?;
    push_head(alloc, text, fibers.len(), sheet.drawn.len())?;
    push_legend(text)?;
    push_ground(alloc, text, queues, stood, handles, blocked, fibers, sheet)?;
    push_figures(alloc, text, queues, stood, fibers, sheet)?;
    push_end_tag(text, Tag::Svg)
}

/// Appends the picture with these events from top to bottom.
fn push_picture(
    alloc: Global,
    text: &mut String,
    queues: &[QueueDecl],
    stood: &[Stood],
    handles: &[Handle],
    blocked: &[Blocked],
    fibers: &[FiberReport],
    list: &[Occurrence],
) -> Result<(), AllocError>
    requires fibers { length fibers.now ≤ MOST_EVENTS }
    requires events { length list.now ≤ MOST_EVENTS }
    requires queues { length queues.now ≤ MOST_EVENTS }
    ensures { OnOk result (string_bytes text.new ≡ string_bytes text.old
        ++ picture_text (names_of queues.now) stood.now (view_handles handles.now) blocked.now fibers.now list.now) }
{
    let sheet = sheet_of(alloc, stood, list)?;
    push_drawing(alloc, text, queues, stood, handles, blocked, fibers, &sheet)
}

/// The text of the picture with these events.
fn draw(
    alloc: Global,
    script: &Script,
    report: &Report,
    stood: &[Stood],
    handles: &[Handle],
    blocked: &[Blocked],
    list: &[Occurrence],
) -> Result<String, AllocError>
    requires fibers { length report.now.fibers ≤ MOST_EVENTS }
    requires events { length list.now ≤ MOST_EVENTS }
    requires queues { length script.now.queues.items ≤ MOST_EVENTS }
    ensures { IfOk result (λ text. string_bytes text
        ≡ picture_text (queue_names (meaning script.now)) stood.now (view_handles handles.now) blocked.now
        report.now.fibers list.now) }
{
    let mut text = String::new(alloc);
    push_picture(
        alloc,
        &mut text,
        &script.queues,
        stood,
        handles,
        blocked,
        &report.fibers,
        list,
    )?;
    Ok(text)
}

/// The picture of a report, of whose run this is told, whose script calls fibers so, and of which these fibers are blocked.
/// It fails only where memory runs out, or where it would be too large.
pub fn format_picture(
    alloc: Global,
    script: &Script,
    report: &Report,
    stood: &[Stood],
    handles: &[Handle],
    blocked: &[Blocked],
) -> Result<String, PictureFault>
    ensures picture { IfOk result (λ text. IsPicture (queue_names (meaning script.now)) stood.now report.now
        (view_handles handles.now) blocked.now (string_bytes text)) }
    ensures fault { IfErr result (λ fault. fault ≡ TooLarge
        → IsTooLarge (queue_names (meaning script.now)) report.now) }
{
    let list = order_by_stamp(alloc, report)?;
    if script.queues.len() > MOST_EVENTS {
        return Err(PictureFault::TooLarge);
    }
    if report.fibers.len() > MOST_EVENTS {
        return Err(PictureFault::TooLarge);
    }
    if list.len() > MOST_EVENTS {
        return Err(PictureFault::TooLarge);
    }
    let text = draw(alloc, script, report, stood, handles, blocked, &list)?;
    Ok(text)
}
