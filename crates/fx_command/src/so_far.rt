//! What a run has shown so far, as it is told.
ghost use Rattle.std.specs.Prelude.{◌≡◌, ◌<◌, ◌^◌, [], OnOk, IfOk, length, replicate, slice_index_or};
ghost use Rattle.fx_command.specs.SoFar.{nothing_shown, next_of, held_in, front_of, last_of, cause_when, queues_after};
ghost use Rattle.fx_command.specs.SoFar.{count_by, with_event};

use crate::held_puts::HeldPuts;
use fx_picture::EventAt;
use fx_term::Event;
use std::alloc::{AllocError, Global};
use std::marker::Model;

/// How many events each fiber has shown, by its number, and whose puts each queue holds, by its own.
#[derive(Drop)]
pub(crate) struct SoFar {
    shown: Vec<usize>,
    queues: Vec<HeldPuts>,
}

impl Model for SoFar {
    ghost use Rattle.fx_command.specs.SoFar.{SoFarView};

    ghost Value = { SoFarView };

    ghost view = { λ s. record { shown = s.shown.items; queues = s.queues.items } };
}

/// So many queues with no element.
fn empty_queues(alloc: Global, count: usize) -> Result<Vec<HeldPuts>, AllocError>
    ensures { IfOk result (λ queues. queues.items ≡ replicate count []) }
{
    let mut queues = Vec::new(alloc);
    for _queue in 0..count {
        queues.push(HeldPuts::new(alloc))?;
    }
    Ok(queues)
}

impl SoFar {
    /// Nothing, of so many fibers and queues.
    pub fn new(alloc: Global, fibers: usize, queues: usize) -> Result<SoFar, AllocError>
        ensures { IfOk result (λ so_far. so_far ≡ nothing_shown fibers queues) }
    {
        let shown = vec![in alloc; 0; fibers]?;
        let queues = empty_queues(alloc, queues)?;
        Ok(SoFar { shown, queues })
    }

    /// The next event of the fiber.
    fn next(&self, fiber: u32) -> EventAt
        ensures { result ≡ next_of self.now fiber }
    {
        let place = self.shown.get(fiber as usize).copied().unwrap_or(0);
        EventAt { fiber, place }
    }

    /// The put whose element is the front of that queue.
    fn front(&self, queue: u8) -> Option<EventAt>
        ensures { result ≡ front_of (held_in self.now.queues queue) }
    {
        match self.queues.get(queue as usize) {
            Some(held) => held.front(),
            None => None,
        }
    }

    /// How many elements that queue holds.
    fn len(&self, queue: u8) -> usize
        ensures { result ≡ length (held_in self.now.queues queue) }
    {
        match self.queues.get(queue as usize) {
            Some(held) => held.len(),
            None => 0,
        }
    }

    /// The last event that the fiber has shown, if it has shown one.
    fn last(&self, fiber: u32) -> Option<EventAt>
        ensures { result ≡ last_of self.now.shown fiber }
    {
        let shown = self.shown.get(fiber as usize).copied().unwrap_or(0);
        if shown == 0 {
            return None;
        }
        Some(EventAt {
            fiber,
            place: shown - 1,
        })
    }

    /// The event that causes this one, if it is a get, or the first of two fibers, of which the step has learned that this
    /// one has ended.
    pub fn cause(&self, learned: Option<u32>, event: Event) -> Option<EventAt>
        ensures { result ≡ cause_when self.now learned event }
    {
        match event {
            Event::Got(queue, _) => self.front(queue),
            Event::First(_) => self.last(learned?),
            _ => None,
        }
    }

    /// How many elements the queue holds that this event is at.
    pub fn count(&self, event: Event) -> Option<usize>
        ensures { result ≡ count_by self.now.queues event }
    {
        match event {
            Event::Put(queue, _) | Event::Got(queue, _) => Some(self.len(queue)),
            Event::Refused(queue) | Event::Empty(queue) => Some(self.len(queue)),
            _ => None,
        }
    }

    /// What the event, which is that one of the run, does to the queues.
    fn move_element(&mut self, at: EventAt, event: Event) -> Result<(), AllocError>
        ensures { OnOk result
            (self.new ≡ record self.old { queues = queues_after at event self.old.queues }) }
    {
        match event {
            Event::Put(queue, _) => match self.queues.get_mut(queue as usize) {
                Some(held) => held.push(at),
                None => Ok(()),
            },
            Event::Got(queue, _) => {
                if let Some(held) = self.queues.get_mut(queue as usize) {
                    held.pop();
                }
                Ok(())
            }
            _ => Ok(()),
        }
    }

    /// The fiber has shown that event.
    pub fn note(&mut self, fiber: u32, event: Event) -> Result<(), AllocError>
        requires { slice_index_or self.old.shown fiber 0 < 2 ^ 63 }
        ensures { OnOk result (self.new ≡ with_event self.old fiber event) }
    {
        let at = self.next(fiber);
        self.move_element(at, event)?;
        if let Some(shown) = self.shown.get_mut(fiber as usize) {
            *shown = at.place + 1;
        }
        Ok(())
    }
}
