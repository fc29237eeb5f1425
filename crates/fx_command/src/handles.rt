//! What a script calls the fibers of a run.
ghost use Rattle.std.specs.Prelude.{◌≡◌, ◌+◌, ◌<◌, ◌^◌, ◌++◌, Some, IfOk, OnOk, length};
ghost use Rattle.std.specs.List.{flat_map};
ghost use Rattle.fx_places.specs.Handle.{handle_of};
ghost use Rattle.fx_picture.specs.Handles.{view_handles};
ghost use Rattle.fx_command.specs.HandlesTold.{one_named, named_by, named_in, named_told, named_at};

use crate::told_text::place_at;
use fx_picture::Handle;
use fx_places::{FormPlace, handle_of};
use fx_plain::Told;
use fx_run_events::RanEvent;
use fx_term::Event;
use std::alloc::{AllocError, Global};

/// Appends the name that the form of this place gives the fiber that it starts, if it gives one.
fn push_handle(
    alloc: Global,
    handles: &mut Vec<Handle>,
    source: &[u8],
    place: FormPlace,
    fiber: u32,
) -> Result<(), AllocError>
    requires { length source.now + 2 < 2 ^ 32 }
    ensures { OnOk result (view_handles handles.new.items
        ≡ view_handles handles.old.items ++ one_named fiber (handle_of source.now place)) }
{
    let Some(name) = handle_of(source, place) else {
        return Ok(());
    };
    let name = String::from_str(alloc, name)?;
    handles.push(Handle { fiber, name })?;
    Ok(())
}

/// Appends the name of the fiber that a step at this place starts, if it starts one, and if that has a name.
fn push_started(
    alloc: Global,
    handles: &mut Vec<Handle>,
    source: &[u8],
    place: Option<FormPlace>,
    event: Option<Event>,
) -> Result<(), AllocError>
    requires { length source.now + 2 < 2 ^ 32 }
    ensures { OnOk result (view_handles handles.new.items
        ≡ view_handles handles.old.items ++ named_by source.now place event) }
{
    match (place, event) {
        (Some(place), Some(Event::Start(fiber))) => push_handle(
            alloc, handles, source, place, fiber,
        ),
        _ => Ok(()),
    }
}

/// Appends the name of the fiber that is told to be started, if one is, and if that has a name.
fn push_told(
    alloc: Global,
    handles: &mut Vec<Handle>,
    source: &[u8],
    places: &[FormPlace],
    told: Told,
) -> Result<(), AllocError>
    requires { length source.now + 2 < 2 ^ 32 }
    ensures { OnOk result (view_handles handles.new.items
        ≡ view_handles handles.old.items ++ named_in source.now places.now told) }
{
    match told {
        Told::Step(made) => {
            push_started(
                alloc,
                handles,
                source,
                place_at(places, made.node),
                made.event,
            )
        }
        Told::Request(_) | Told::Passed(_) => Ok(()),
    }
}

/// The names of the fibers that are told to be started, of a replay: of those that a `start` started, whose text this is.
pub(crate) fn handles_of(
    alloc: Global,
    source: &[u8],
    places: &[FormPlace],
    told: &[Told],
) -> Result<Vec<Handle>, AllocError>
    requires { length source.now + 2 < 2 ^ 32 }
    ensures { IfOk result (λ handles. view_handles handles.items
        ≡ named_told source.now places.now told.now) }
{
    let mut handles = Vec::new(alloc);
    let mut rest = told;
    while let Some((next, more)) = rest.split_first() {
        push_told(alloc, &mut handles, source, places, *next)?;
        rest = more;
    }
    Ok(handles)
}

/// The names of the fibers that these events of a run on threads start: of those that a `start` started, whose text this is.
pub(crate) fn handles_of_run(
    alloc: Global,
    source: &[u8],
    places: &[FormPlace],
    events: &[RanEvent],
) -> Result<Vec<Handle>, AllocError>
    requires { length source.now + 2 < 2 ^ 32 }
    ensures { IfOk result (λ handles. view_handles handles.items
        ≡ flat_map (named_at source.now places.now) events.now) }
{
    let mut handles = Vec::new(alloc);
    let mut rest = events;
    while let Some((next, more)) = rest.split_first() {
        let place = place_at(places, next.node());
        push_started(alloc, &mut handles, source, place, Some(next.event))?;
        rest = more;
    }
    Ok(handles)
}
