//! Says of each blocked fiber where it stands, and what it waits for.
ghost use Rattle.std.specs.Prelude.{◌≡◌, ◌++◌, length, All, OnOk, IfOk, string_bytes};
ghost use Rattle.fx_text.specs.View.{meaning};
ghost use Rattle.fx_report.specs.Text.{names_of, queue_names};
ghost use Rattle.fx_report.specs.Waits.{source_text, position_text, position_of, wait_line, blocked_line, blocked_text};
ghost use Rattle.fx_report.specs.Waits.{WaitsAtQueueBelow, IsBlockedAtQueueBelow, IsAtQueueBelow};

use crate::blocked::Blocked;
use crate::lines::{end_line, push_named};
use crate::wait::Wait;
use fx_model::Source;
use fx_term::NodeId;
use fx_text::{Position, QueueDecl, Script};
use std::alloc::{AllocError, Global};

/// Appends the words for what is waited for, where the script has these queues.
fn push_source(text: &mut String, queues: &[QueueDecl], source: Source) -> Result<(), AllocError>
    requires { IsAtQueueBelow (length queues.now) source }
    ensures { OnOk result (string_bytes text.new
        ≡ string_bytes text.old ++ source_text (names_of queues.now) source) }
{
    match source {
        Source::Nothing => text.push_str("nothing that comes"),
        Source::Outcome(fiber) => write!(text, "fiber {fiber} to end"),
        Source::Either(left, right) => write!(text, "fiber {left} or {right} to end"),
        Source::Room(queue) => push_named(text, "room in queue", queues, queue),
        Source::Element(queue) => push_named(text, "an element of queue", queues, queue),
    }
}

/// Appends the words for a position, if there is one.
fn push_position(text: &mut String, position: Option<Position>) -> Result<(), AllocError>
    ensures { OnOk result (string_bytes text.new
        ≡ string_bytes text.old ++ position_text position) }
{
    let Some(Position { line, column }) = position else {
        return Ok(());
    };
    write!(text, " (line {line}, column {column})")
}

/// Appends the line of a fiber that waits, and stands there if that is known, where the script has these queues.
fn push_wait_line(
    text: &mut String,
    queues: &[QueueDecl],
    position: Option<Position>,
    wait: Wait,
) -> Result<(), AllocError>
    requires { WaitsAtQueueBelow (length queues.now) wait }
    ensures { OnOk result (string_bytes text.new
        ≡ string_bytes text.old ++ wait_line (names_of queues.now) position wait) }
{
    let fiber = wait.fiber;
    write!(text, "fiber {fiber}")?;
    push_position(text, position)?;
    text.push_str(" waits for ")?;
    push_source(text, queues, wait.source)?;
    end_line(text)
}

/// The position of this node among those of all, if there is a node that has one.
fn position_at(positions: &[Position], node: Option<NodeId>) -> Option<Position>
    ensures { result ≡ position_of positions.now node }
{
    let NodeId(place) = node?;
    positions.get(place as usize).copied()
}

fn push_blocked_lines(
    text: &mut String,
    queues: &[QueueDecl],
    positions: &[Position],
    blocked: &[Blocked],
) -> Result<(), AllocError>
    requires { All (IsBlockedAtQueueBelow (length queues.now)) blocked.now }
    ensures { OnOk result (string_bytes text.new
        ≡ string_bytes text.old ++ blocked_text (names_of queues.now) positions.now blocked.now) }
{
    for it in blocked {
        push_wait_line(text, queues, position_at(positions, it.node), it.wait)?;
    }
    Ok(())
}

/// A line for each of these fibers: where it stands, if the nodes of the script's code have these positions, and what
/// it waits for. Where no position is known of its node the line says only this.
pub fn format_waits(
    alloc: Global,
    script: &Script,
    positions: &[Position],
    blocked: &[Blocked],
) -> Result<String, AllocError>
    requires { All (IsBlockedAtQueueBelow (length (queue_names (meaning script.now)))) blocked.now }
    ensures { IfOk result (λ text. string_bytes text
        ≡ blocked_text (queue_names (meaning script.now)) positions.now blocked.now) }
{
    let mut text = String::new(alloc);
    push_blocked_lines(&mut text, &script.queues, positions, blocked)?;
    Ok(text)
}
