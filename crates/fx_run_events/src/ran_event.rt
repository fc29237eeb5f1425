//! An event of a run on threads, with what was found of it.
ghost use Rattle.std.specs.Prelude.{◌≡◌};
ghost use Rattle.fx_run_events.specs.Causes.{learned_stood};
ghost use Rattle.fx_run_events.specs.RanEvents.{last_node_stood, node_stood, was_open};

use fx_follow::Stand;
use fx_picture::EventAt;
use fx_term::{Event, NodeId};

/// An event of a run: of which fiber it is, and what was found of it.
#[derive(Clone, Copy)]
pub struct RanEvent {
    pub fiber: u32,
    pub event: Event,
    /// Where the fiber stood before the step that showed it, if that was found.
    pub stand: Option<Stand>,
    /// Of a put and a get, how many elements its queue held after it, if that was found.
    pub held: Option<usize>,
    /// Of a get the put of the element that it took, and of the first of two fibers the end that was learnt of, if that
    /// was found. Other events say themselves what caused them.
    pub cause: Option<EventAt>,
}

/// The fiber of whose end a step learnt that was made there.
pub(crate) fn learned_stood(stand: Option<Stand>) -> Option<u32>
    ensures { result ≡ learned_stood stand }
{
    match stand {
        Some(stand) => stand.learned,
        None => None,
    }
}

impl RanEvent {
    /// The node at which the fiber stood.
    pub fn node(&self) -> Option<NodeId>
        ensures { result ≡ node_stood self.now.stand }
    {
        match self.stand {
            Some(stand) => stand.node,
            None => None,
        }
    }

    /// The last node at which the fiber stood until then: where the place had none of its own, one before.
    pub fn last_node(&self) -> Option<NodeId>
        ensures { result ≡ last_node_stood self.now.stand }
    {
        match self.stand {
            Some(stand) => stand.last_node,
            None => None,
        }
    }

    /// Whether a request would have been seen there: yes where that is not known.
    pub fn is_open(&self) -> bool
        ensures { result ≡ was_open self.now.stand }
    {
        match self.stand {
            Some(stand) => stand.is_open,
            None => true,
        }
    }
}
