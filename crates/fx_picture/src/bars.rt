//! Draws the bars.
ghost use Rattle.std.specs.Prelude.{◌≡◌, ◌≤◌, ◌++◌, length, OnOk, string_bytes};
ghost use Rattle.fx_svg.specs.Content.{rendering};
ghost use Rattle.fx_picture.specs.Bars.{closing_row};
ghost use Rattle.fx_picture.specs.Picture.{bar_end, ends_in, bar_line, bar_to, bar_of, bars_from};

use crate::bar::{Bar, bar_at, life_at, mask_at};
use crate::drawn::Drawn;
use crate::layout::{BOTTOM, MOST_EVENTS, lane_of, lane_x, row_y};
use crate::stood::Stood;
use fx_model::FiberReport;
use fx_svg::{Attribute, Key, Tag, Value, push_element, push_end_tag, push_start_tag};
use std::alloc::{AllocError, Global};

/// Where a bar ends beside so many rows: in its row, or where the lanes do.
fn bar_end(rows: u32, closing: Option<u32>) -> u64
    ensures { result ≡ bar_end rows closing }
{
    match closing {
        Some(row) => row_y(row),
        None => row_y(rows) + BOTTOM,
    }
}

/// Whether a bar that is closed in that row or not ends in this one.
fn ends_in(row: u32, closing: Option<u32>) -> bool
    ensures { result ≡ ends_in row closing }
{
    match closing {
        Some(closed) => closed == row,
        None => false,
    }
}

/// Appends a bar, which is closed in that row or not.
fn push_bar_line(
    alloc: Global,
    text: &mut String,
    bar: Bar,
    closing: Option<u32>,
    x: u64,
    top: u64,
    bottom: u64,
) -> Result<(), AllocError>
    ensures { OnOk result (string_bytes text.new ≡ string_bytes text.old
        ++ rendering (bar_line bar closing x top bottom)) }
{
    let ends = [
        Attribute {
            key: Key::Class,
            value: Value::Words(bar.class(closing)),
        },
        Attribute {
            key: Key::X1,
            value: Value::Number(x),
        },
        Attribute {
            key: Key::Y1,
            value: Value::Number(top),
        },
        Attribute {
            key: Key::X2,
            value: Value::Number(x),
        },
        Attribute {
            key: Key::Y2,
            value: Value::Number(bottom),
        },
    ];
    let words = bar.words(alloc)?;
    push_start_tag(text, Tag::Line, &ends)?;
    push_element(text, Tag::Title, &[], &words)?;
    push_end_tag(text, Tag::Line)
}

/// Appends the bar that begins at this event, beside so many rows, and is closed in that row or not. There is none that
/// ends in the row where it begins.
fn push_bar_to(
    alloc: Global,
    text: &mut String,
    fibers: &[FiberReport],
    rows: u32,
    from: Drawn,
    bar: Bar,
    closing: Option<u32>,
) -> Result<(), AllocError>
    requires { length fibers.now ≤ MOST_EVENTS }
    ensures { OnOk result (string_bytes text.new ≡ string_bytes text.old
        ++ rendering (bar_to fibers.now rows from bar closing)) }
{
    if ends_in(from.row, closing) {
        return Ok(());
    }
    let x = bar.beside(lane_x(lane_of(fibers, from.event.fiber)));
    let top = row_y(from.row);
    push_bar_line(alloc, text, bar, closing, x, top, bar_end(rows, closing))
}

/// Appends the bar that begins at this event, if one does, beside so many rows. These are the events from it on.
fn push_bar_of(
    alloc: Global,
    text: &mut String,
    stood: &[Stood],
    fibers: &[FiberReport],
    rows: u32,
    from: Drawn,
    list: &[Drawn],
    bar: Option<Bar>,
) -> Result<(), AllocError>
    requires { length fibers.now ≤ MOST_EVENTS }
    ensures { OnOk result (string_bytes text.new ≡ string_bytes text.old
        ++ rendering (bar_of stood.now fibers.now rows from list.now bar)) }
{
    match bar {
        Some(bar) => {
            let closing = bar.closing_row(stood, from.event.fiber, list);
            push_bar_to(alloc, text, fibers, rows, from, bar, closing)
        }
        None => Ok(()),
    }
}

/// Appends the bars that begin at these events, beside so many rows.
pub(crate) fn push_bars(
    alloc: Global,
    text: &mut String,
    stood: &[Stood],
    fibers: &[FiberReport],
    rows: u32,
    list: &[Drawn],
) -> Result<(), AllocError>
    requires { length fibers.now ≤ MOST_EVENTS }
    ensures { OnOk result (string_bytes text.new ≡ string_bytes text.old
        ++ rendering (bars_from stood.now fibers.now rows list.now)) }
{
    let mut rest = list;
    while let Some((it, more)) = rest.split_first() {
        let life = life_at(it.event.place);
        push_bar_of(alloc, text, stood, fibers, rows, *it, rest, life)?;
        let bar = bar_at(it.event.event);
        push_bar_of(alloc, text, stood, fibers, rows, *it, rest, bar)?;
        let mask = mask_at(stood, it.event.fiber, it.event.place);
        push_bar_of(alloc, text, stood, fibers, rows, *it, rest, mask)?;
        rest = more;
    }
    Ok(())
}
