//! What is told of the events of a replay.
ghost use Rattle.std.specs.Prelude.{◌≡◌, ◌<◌, ◌^◌, ◌++◌, ℕ, IfOk, OnOk, length, slice_index_or};
ghost use Rattle.fx_text.specs.View.{meaning};
ghost use Rattle.fx_term.specs.Script.{total};
ghost use Rattle.fx_report.specs.Script.{script_of};
ghost use Rattle.fx_command.specs.StoodEvents.{position_of, stood_when, stood_in, shown_when, shown_after, stood_events};

use crate::so_far::SoFar;
use crate::stood::{node_of, note};
use crate::told_text::place_at;
use fx_picture::Stood;
use fx_places::FormPlace;
use fx_plain::{MadeStep, Told};
use fx_text::{Position, Script};
use std::alloc::{AllocError, Global};

/// The position of a form, if that is known.
pub(crate) fn position_of(place: Option<FormPlace>) -> Option<Position>
    ensures { result ≡ position_of place }
{
    match place {
        Some(place) => Some(place.position),
        None => None,
    }
}

/// Appends what is told of the event of this step, if it showed one, and notes that. Its node has that place.
fn push_step(
    list: &mut Vec<Stood>,
    so_far: &mut SoFar,
    place: Option<FormPlace>,
    made: MadeStep,
) -> Result<(), AllocError>
    requires { slice_index_or so_far.old.shown made.fiber 0 < 2 ^ 63 }
    ensures list { OnOk result
        (list.new.items ≡ list.old.items ++ stood_when place so_far.old made made.event) }
    ensures shown { OnOk result (so_far.new ≡ shown_when so_far.old made.fiber made.event) }
{
    match made.event {
        Some(event) => {
            let cause = so_far.cause(made.learned, event);
            so_far.note(made.fiber, event)?;
            list.push(Stood {
                fiber: made.fiber,
                position: position_of(place),
                is_open: made.is_open,
                cause,
                held: so_far.count(event),
            })?;
            Ok(())
        }
        None => Ok(()),
    }
}

/// Appends what is told of the next event, if this is one, and notes it.
fn push_told(
    list: &mut Vec<Stood>,
    so_far: &mut SoFar,
    place: Option<FormPlace>,
    told: Told,
) -> Result<(), AllocError>
    requires { (f : ℕ) → slice_index_or so_far.old.shown f 0 < 2 ^ 63 }
    ensures list { OnOk result (list.new.items ≡ list.old.items ++ stood_in place so_far.old told) }
    ensures shown { OnOk result (so_far.new ≡ shown_after so_far.old told) }
{
    match told {
        Told::Step(made) => push_step(list, so_far, place, made),
        Told::Request(_) | Told::Passed(_) => Ok(()),
    }
}

/// What is told of the events of a run, in its order.
pub(crate) fn stood_events(
    alloc: Global,
    script: &Script,
    places: &[FormPlace],
    told: &[Told],
) -> Result<Vec<Stood>, AllocError>
    ensures { let m = meaning script.now in IfOk result (λ list. list.items
        ≡ stood_events places.now (total (script_of m)) (length m.queues) told.now) }
{
    let fibers = script.total() as usize;
    let mut nodes = vec![in alloc; None; fibers]?;
    let mut so_far = SoFar::new(alloc, fibers, script.queues.len())?;
    let mut list = Vec::new(alloc);
    let mut rest = told;
    while let Some((next, more)) = rest.split_first() {
        let place = place_at(places, node_of(&nodes, *next));
        push_told(&mut list, &mut so_far, place, *next)?;
        note(&mut nodes, *next);
        rest = more;
    }
    Ok(list)
}
