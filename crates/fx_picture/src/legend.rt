//! The legend.
ghost use Rattle.std.specs.Prelude.{◌≡◌, ◌≤◌, ◌+◌, ◌++◌, length, map, OnOk, string_bytes};
ghost use Rattle.fx_svg.specs.Content.{rendering};
ghost use Rattle.fx_picture.specs.Legend.{view_entry, legend_y, said, mark_entry, mark_entries};
ghost use Rattle.fx_picture.specs.Legend.{line_sample, line_entry, line_entries, marks_of_fibers, marks_of_queues};
ghost use Rattle.fx_picture.specs.Legend.{lines, fold_sample, fold_entry, held_entry, counted, legend};

use crate::elements::{HALF_HEIGHT, Point, push_box, push_label, push_line};
use crate::layout::{BASE, LEGEND_BOTTOM, ROW};
use crate::marks::RADIUS;
use fx_svg::{Attribute, Key, Tag, Value, push_empty_element, push_end_tag, push_start_tag};
use std::alloc::AllocError;

/// The middle of its first row.
pub(crate) const LEGEND_TOP: u64 = 24;

/// Where its lines begin, its marks stand, its lines end, and its words begin.
pub(crate) const LINE_LEFT: u64 = 10;

pub(crate) const MARK: u64 = 23;

pub(crate) const LINE_RIGHT: u64 = 36;

pub(crate) const WORDS: u64 = 46;

/// How many rows it has at most.
pub(crate) const MOST_ENTRIES: usize = 22;

/// What is shown, by the name by which the style means it, and what that is in words.
#[derive(Clone, Copy)]
struct Entry {
    class: &'static str,
    words: &'static str,
}

fn legend_y(row: usize) -> u64
    requires { row ≤ MOST_ENTRIES }
    ensures is { result ≡ legend_y row }
    ensures within { result ≤ LEGEND_BOTTOM }
{
    LEGEND_TOP + row as u64 * ROW
}

/// Appends the words beside what stands at that height.
fn push_said(text: &mut String, y: u64, words: &str) -> Result<(), AllocError>
    requires { y ≤ LEGEND_BOTTOM }
    ensures { OnOk result (string_bytes text.new ≡ string_bytes text.old
        ++ rendering (said y words.now)) }
{
    let at = Point {
        x: WORDS,
        y: y + BASE,
    };
    push_label(text, "said", at, words)
}

/// Appends a mark, with its words beside it.
fn push_mark_entry(text: &mut String, row: usize, entry: Entry) -> Result<(), AllocError>
    requires { row ≤ MOST_ENTRIES }
    ensures { OnOk result (string_bytes text.new
        ≡ string_bytes text.old ++ rendering (mark_entry row (view_entry entry))) }
{
    let y = legend_y(row);
    let place = [
        Attribute {
            key: Key::Class,
            value: Value::Words(entry.class),
        },
        Attribute {
            key: Key::CenterX,
            value: Value::Number(MARK),
        },
        Attribute {
            key: Key::CenterY,
            value: Value::Number(y),
        },
        Attribute {
            key: Key::Radius,
            value: Value::Number(RADIUS),
        },
    ];
    push_empty_element(text, Tag::Circle, &place)?;
    push_said(text, y, entry.words)
}

/// Appends these marks, from this row on.
fn push_mark_entries(text: &mut String, first: usize, entries: &[Entry]) -> Result<(), AllocError>
    requires { first + length entries.now ≤ MOST_ENTRIES }
    ensures { OnOk result (string_bytes text.new ≡ string_bytes text.old
        ++ rendering (mark_entries first (map view_entry entries.now))) }
{
    let mut row = first;
    let mut rest = entries;
    while let Some((entry, more)) = rest.split_first() {
        push_mark_entry(text, row, *entry)?;
        row += 1;
        rest = more;
    }
    Ok(())
}

/// Appends a line at that height.
fn push_line_sample(text: &mut String, class: &str, y: u64) -> Result<(), AllocError>
    ensures { OnOk result (string_bytes text.new
        ≡ string_bytes text.old ++ rendering (line_sample class.now y)) }
{
    push_line(
        text,
        class,
        Point { x: LINE_LEFT, y },
        Point { x: LINE_RIGHT, y },
    )
}

/// Appends a line, with its words beside it.
fn push_line_entry(text: &mut String, row: usize, entry: Entry) -> Result<(), AllocError>
    requires { row ≤ MOST_ENTRIES }
    ensures { OnOk result (string_bytes text.new
        ≡ string_bytes text.old ++ rendering (line_entry row (view_entry entry))) }
{
    let y = legend_y(row);
    push_line_sample(text, entry.class, y)?;
    push_said(text, y, entry.words)
}

/// Appends these lines, from this row on.
fn push_line_entries(text: &mut String, first: usize, entries: &[Entry]) -> Result<(), AllocError>
    requires { first + length entries.now ≤ MOST_ENTRIES }
    ensures { OnOk result (string_bytes text.new ≡ string_bytes text.old
        ++ rendering (line_entries first (map view_entry entries.now))) }
{
    let mut row = first;
    let mut rest = entries;
    while let Some((entry, more)) = rest.split_first() {
        push_line_entry(text, row, *entry)?;
        row += 1;
        rest = more;
    }
    Ok(())
}

/// Appends the marks of what happens to fibers.
fn push_marks_of_fibers(text: &mut String) -> Result<(), AllocError>
    ensures { OnOk result (string_bytes text.new ≡ string_bytes text.old
        ++ rendering (mark_entries 0 marks_of_fibers)) }
{
    let entries = [
        Entry {
            class: "start",
            words: "starts a fiber",
        },
        Entry {
            class: "learn",
            words: "learns how one ended",
        },
        Entry {
            class: "end",
            words: "ends",
        },
        Entry {
            class: "gone",
            words: "ends as canceled",
        },
        Entry {
            class: "cancel",
            words: "requests, or is canceled",
        },
        Entry {
            class: "seen",
            words: "sees a request",
        },
    ];
    push_mark_entries(text, 0, &entries)
}

/// Appends the marks of what happens to queues and resources.
fn push_marks_of_queues(text: &mut String) -> Result<(), AllocError>
    ensures { OnOk result (string_bytes text.new ≡ string_bytes text.old
        ++ rendering (mark_entries 6 marks_of_queues)) }
{
    let entries = [
        Entry {
            class: "put",
            words: "puts an element",
        },
        Entry {
            class: "got",
            words: "takes an element",
        },
        Entry {
            class: "none",
            words: "finds it full or empty",
        },
        Entry {
            class: "held",
            words: "acquires a resource",
        },
        Entry {
            class: "free",
            words: "begins, ends its release",
        },
    ];
    push_mark_entries(text, 6, &entries)
}

/// Appends the lines.
fn push_lines(text: &mut String) -> Result<(), AllocError>
    ensures { OnOk result (string_bytes text.new ≡ string_bytes text.old
        ++ rendering (line_entries 11 lines)) }
{
    let entries = [
        Entry {
            class: "arrow start",
            words: "to what it started",
        },
        Entry {
            class: "arrow end",
            words: "to who learns of the end",
        },
        Entry {
            class: "arrow cancel dashed",
            words: "to who sees the request",
        },
        Entry {
            class: "arrow put",
            words: "to who takes the element",
        },
        Entry {
            class: "life",
            words: "a fiber that ends",
        },
        Entry {
            class: "life open",
            words: "one that waits for good",
        },
        Entry {
            class: "unwinding",
            words: "its clean-ups run",
        },
        Entry {
            class: "holding",
            words: "it holds a resource",
        },
        Entry {
            class: "masked",
            words: "no cancellation acts",
        },
    ];
    push_line_entries(text, 11, &entries)
}

/// Appends the mark of several events, at that height.
fn push_fold_sample(text: &mut String, y: u64) -> Result<(), AllocError>
    requires { HALF_HEIGHT ≤ y }
    ensures { OnOk result
        (string_bytes text.new ≡ string_bytes text.old ++ rendering (fold_sample y)) }
{
    let class = [Attribute {
        key: Key::Class,
        value: Value::Words("fold"),
    }];
    push_start_tag(text, Tag::Group, &class)?;
    push_box(text, Point { x: MARK, y })?;
    push_end_tag(text, Tag::Group)
}

/// Appends the mark of several events, with its words beside it.
fn push_fold_entry(text: &mut String, row: usize, words: &str) -> Result<(), AllocError>
    requires { row ≤ MOST_ENTRIES }
    ensures { OnOk result
        (string_bytes text.new ≡ string_bytes text.old ++ rendering (fold_entry row words.now)) }
{
    let y = legend_y(row);
    push_fold_sample(text, y)?;
    push_said(text, y, words)
}

/// Appends how many elements a queue holds, with its words beside it.
fn push_held_entry(text: &mut String, row: usize, words: &str) -> Result<(), AllocError>
    requires { row ≤ MOST_ENTRIES }
    ensures { OnOk result
        (string_bytes text.new ≡ string_bytes text.old ++ rendering (held_entry row words.now)) }
{
    let y = legend_y(row);
    let at = Point {
        x: MARK,
        y: y + BASE,
    };
    push_line_sample(text, "queue", y)?;
    push_label(text, "holds", at, "2")?;
    push_said(text, y, words)
}

/// Appends what is counted.
fn push_counted(text: &mut String) -> Result<(), AllocError>
    ensures { OnOk result (string_bytes text.new ≡ string_bytes text.old ++ rendering counted) }
{
    push_fold_entry(text, 20, "so many events of a loop")?;
    push_held_entry(text, 21, "so many it holds then")
}

/// Appends the legend.
pub(crate) fn push_legend(text: &mut String) -> Result<(), AllocError>
    ensures { OnOk result (string_bytes text.new ≡ string_bytes text.old ++ rendering legend) }
{
    let class = [Attribute {
        key: Key::Class,
        value: Value::Words("legend"),
    }];
    push_start_tag(text, Tag::Group, &class)?;
    push_marks_of_fibers(text)?;
    push_marks_of_queues(text)?;
    push_lines(text)?;
    push_counted(text)?;
    push_end_tag(text, Tag::Group)
}
