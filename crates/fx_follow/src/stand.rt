//! Where a fiber stood, and of whose end it learned there.
ghost use Rattle.std.specs.Prelude.{◌≡◌, Some};
ghost use Rattle.fx_fiber.specs.Fiber.{progress};
ghost use Rattle.fx_plain.specs.ToldWay.{found_of, learned_of};
ghost use Rattle.fx_follow.specs.Trails.{last_node_after};
ghost use Rattle.fx_follow.specs.Places.{IsPlaceAt, stand_of};

use fx_explore::AnswerPort;
use fx_fiber::{Fiber, Source};
use fx_term::{Code, CodeBrand, Event, NodeId};

/// What is told of a step that showed an event: where its fiber stood before it, and of whose end it learned.
#[derive(Clone, Copy)]
pub struct Stand {
    /// The node, as [`Fiber::node`](fx_fiber::Fiber::node) tells.
    pub node: Option<NodeId>,
    /// The same node, or, where the place has none of its own, the last one at which the fiber stood before, by steps that
    /// showed nothing, too. None if there was none.
    pub last_node: Option<NodeId>,
    /// Whether the place was open, as [`Fiber::is_open`](fx_fiber::Fiber::is_open) tells.
    pub is_open: bool,
    /// The fiber of whose end the step learned, if it did.
    pub learned: Option<u32>,
}

/// The place where a fiber stands before a step.
#[derive(Clone, Copy)]
pub(crate) struct Place {
    pub(crate) node: Option<NodeId>,
    pub(crate) is_open: bool,
    /// What it waits for there, if that is a place where a fiber can wait.
    pub(crate) waits: Option<Source>,
}

/// The last node at which a fiber stood that stands here now.
pub(crate) fn last_node_after(before: Option<NodeId>, here: Option<NodeId>) -> Option<NodeId>
    ensures { result ≡ last_node_after before here }
{
    here.or(before)
}

/// The fiber that was found to have ended: of two that were waited for the left one, or the right one.
fn found(waits: Option<Source>, side: u8) -> Option<u32>
    ensures { result ≡ found_of waits side }
{
    match waits {
        Some(Source::Either(left, right)) => Some(if side == 0 { left } else { right }),
        _ => None,
    }
}

/// The fiber of whose end a step learns that shows this event, where that was waited for before it.
fn learned(waits: Option<Source>, event: Event) -> Option<u32>
    ensures { result ≡ learned_of waits (Some event) }
{
    match event {
        Event::Joined(fiber, _) | Event::Awaited(fiber) => Some(fiber),
        Event::First(side) => found(waits, side),
        _ => None,
    }
}

impl Place {
    /// Where the fiber stands.
    pub(crate) fn of<J: CodeBrand>(fiber: &Fiber<AnswerPort<J>>, code: &Code) -> Place
        requires { code.now.nodes ≡ J.nodes }
        ensures { IsPlaceAt J.nodes (progress J.nodes fiber.now) result }
    {
        Place {
            node: fiber.node(code),
            is_open: fiber.is_open(code),
            waits: fiber.waits_for(code),
        }
    }

    /// What is told of a step from here that shows this event, where that is the last node at which the fiber stood.
    pub(crate) fn stand(self, last_node: Option<NodeId>, event: Event) -> Stand
        ensures { result ≡ stand_of self last_node event }
    {
        Stand {
            node: self.node,
            last_node,
            is_open: self.is_open,
            learned: learned(self.waits, event),
        }
    }
}
