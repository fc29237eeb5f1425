//! What a picture is made of.
ghost use Rattle.std.specs.Prelude.{◌≡◌, ◌≤◌, ◌++◌, OnOk, string_bytes};
ghost use Rattle.fx_svg.specs.Content.{rendering};
ghost use Rattle.fx_picture.specs.Elements.{label, line, box};

use fx_svg::{Attribute, Key, Tag, Value, push_element, push_empty_element};
use std::alloc::AllocError;

/// A point, in pixels from the left and from the top.
#[derive(Clone, Copy)]
pub(crate) struct Point {
    pub x: u64,
    pub y: u64,
}

/// How wide and how high the box of several events is, from its middle.
pub(crate) const HALF_WIDTH: u64 = 14;

pub(crate) const HALF_HEIGHT: u64 = 7;

/// Appends words in the picture.
pub(crate) fn push_label(
    text: &mut String,
    class: &str,
    at: Point,
    words: &str,
) -> Result<(), AllocError>
    ensures { OnOk result (string_bytes text.new ≡ string_bytes text.old
        ++ rendering (label class.now at.x at.y words.now)) }
{
    let place = [
        Attribute {
            key: Key::Class,
            value: Value::Words(class),
        },
        Attribute {
            key: Key::X,
            value: Value::Number(at.x),
        },
        Attribute {
            key: Key::Y,
            value: Value::Number(at.y),
        },
    ];
    push_element(text, Tag::Text, &place, words)
}

/// Appends a line from one point to another.
pub(crate) fn push_line(
    text: &mut String,
    class: &str,
    from: Point,
    to: Point,
) -> Result<(), AllocError>
    ensures { OnOk result (string_bytes text.new ≡ string_bytes text.old
        ++ rendering (line class.now from.x from.y to.x to.y)) }
{
    let ends = [
        Attribute {
            key: Key::Class,
            value: Value::Words(class),
        },
        Attribute {
            key: Key::X1,
            value: Value::Number(from.x),
        },
        Attribute {
            key: Key::Y1,
            value: Value::Number(from.y),
        },
        Attribute {
            key: Key::X2,
            value: Value::Number(to.x),
        },
        Attribute {
            key: Key::Y2,
            value: Value::Number(to.y),
        },
    ];
    push_empty_element(text, Tag::Line, &ends)
}

/// Appends the box of several events.
pub(crate) fn push_box(text: &mut String, center: Point) -> Result<(), AllocError>
    requires x { HALF_WIDTH ≤ center.x }
    requires y { HALF_HEIGHT ≤ center.y }
    ensures { OnOk result
        (string_bytes text.new ≡ string_bytes text.old ++ rendering (box center.x center.y)) }
{
    let sides = [
        Attribute {
            key: Key::X,
            value: Value::Number(center.x - HALF_WIDTH),
        },
        Attribute {
            key: Key::Y,
            value: Value::Number(center.y - HALF_HEIGHT),
        },
        Attribute {
            key: Key::Width,
            value: Value::Number(2 * HALF_WIDTH),
        },
        Attribute {
            key: Key::Height,
            value: Value::Number(2 * HALF_HEIGHT),
        },
    ];
    push_empty_element(text, Tag::Rectangle, &sides)
}
