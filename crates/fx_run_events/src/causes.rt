//! What caused an event of a run, where its own words do not name that.
ghost use Rattle.std.specs.Prelude.{◌≡◌};
ghost use Rattle.fx_run_events.specs.Causes.{event_there, taken_put, last_place, last_event, cause_of};

use crate::ran_event::learned_stood;
use crate::sole_puts::{PutAt, sole_put};
use fx_counts::AtQueue;
use fx_follow::Stand;
use fx_model::FiberReport;
use fx_order::Occurrence;
use fx_picture::EventAt;
use fx_term::Event;

/// Which event of its fiber the one in that place of the list is.
fn event_there(list: &[Occurrence], place: usize) -> Option<EventAt>
    ensures { result ≡ event_there list.now place }
{
    let it = list.get(place)?;
    Some(EventAt {
        fiber: it.fiber,
        place: it.place,
    })
}

/// The put that this says a get took an element of, which is one of the list.
fn taken_put(list: &[Occurrence], at_queue: Option<AtQueue>) -> Option<EventAt>
    ensures { result ≡ taken_put list.now at_queue }
{
    event_there(list, at_queue?.took?)
}

/// The last event of this fiber, if it has shown any.
fn last_of(fiber: &FiberReport) -> Option<EventAt>
    ensures { result ≡ last_place fiber.now.id fiber.now.trace }
{
    match fiber.trace.len().checked_sub(1) {
        Some(place) => Some(EventAt {
            fiber: fiber.id,
            place,
        }),
        None => None,
    }
}

/// The last event of the fiber of this number, if it is one of these and has shown any.
fn last_event(fibers: &[FiberReport], id: u32) -> Option<EventAt>
    ensures { result ≡ last_event fibers.now id }
{
    let mut rest = fibers;
    while let Some((fiber, more)) = rest.split_first() {
        if fiber.id == id {
            return last_of(fiber);
        }
        rest = more;
    }
    None
}

/// What is known of a run by which causes are found: its puts, the list of which it is told which put a get took, and its fibers.
#[derive(Clone, Copy)]
pub(crate) struct Known<'a> {
    pub(crate) puts: &'a [PutAt],
    pub(crate) list: &'a [Occurrence],
    pub(crate) fibers: &'a [FiberReport],
}

impl<'a> Known<'a> {
    /// The cause of this event, before which its fiber stood there, and of which that is told at its queue: of a get the put
    /// that a history has it take, or the only one of its value; of the first of two, the last event of the fiber that was
    /// learnt of.
    pub(crate) fn cause_of(
        &self,
        stand: Option<Stand>,
        at_queue: Option<AtQueue>,
        event: Event,
    ) -> Option<EventAt>
        ensures { result ≡ cause_of self.now.puts.now self.now.list.now self.now.fibers.now stand at_queue event }
    {
        match event {
            Event::Got(queue, value) => match taken_put(self.list, at_queue) {
                Some(put) => Some(put),
                None => sole_put(self.puts, queue, value),
            },
            Event::First(_) => last_event(self.fibers, learned_stood(stand)?),
            _ => None,
        }
    }
}
