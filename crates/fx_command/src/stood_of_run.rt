//! What is told of the events of a run on threads.
ghost use Rattle.std.specs.Prelude.{◌≡◌, map, IfOk};
ghost use Rattle.fx_command.specs.StoodOfRun.{stood_by};

use crate::stood_events::position_of;
use crate::told_text::place_at;
use fx_picture::Stood;
use fx_places::FormPlace;
use fx_run_events::RanEvent;
use std::alloc::{AllocError, Global};

/// What is told of these events, where the script's nodes have these places. An event at no node of its own is told at the
/// last one at which its fiber stood.
pub(crate) fn stood_of_run(
    alloc: Global,
    places: &[FormPlace],
    events: &[RanEvent],
) -> Result<Vec<Stood>, AllocError>
    ensures { IfOk result (λ list. list.items ≡ map (stood_by places.now) events.now) }
{
    let mut list = Vec::new(alloc);
    for event in events {
        list.push(Stood {
            fiber: event.fiber,
            position: position_of(place_at(places, event.last_node())),
            is_open: event.is_open(),
            cause: event.cause,
            held: event.held,
        })?;
    }
    Ok(list)
}
