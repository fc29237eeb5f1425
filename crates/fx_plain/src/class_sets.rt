//! The sets of fibers by their classes.
ghost use Rattle.std.specs.Prelude.{◌≡◌, ℕ, ◌<◌, ◌&&◌, true, false, IfOk, IfSome, length};
ghost use Rattle.fx_plain.specs.NumberSet.{is_member, is_member_of, IsLeastOf, lesser};
ghost use Rattle.std.specs.Bool.{OnTrue};
ghost use Rattle.fx_plain.specs.ClassSets.{Kind, ForRoom, ForElement, members, AreWith, is_ready_there};
ghost use Rattle.fx_plain.specs.PlainQueue.{has_room_in, has_element_in};
ghost use Rattle.fx_plain.specs.ClassSets.{NobodyWaitsAt, AreWaitedAt, IsNextWaited};

use crate::class::Class;
use crate::number_set::{NUMBERS, NumberSet};
use crate::number_sets::NumberSets;
use crate::plain_queue::PlainQueue;
use fx_fiber::Source;
use fx_term::Memory;
use std::alloc::Global;
use std::marker::Model;

/// The lesser of two numbers, of those that there are.
pub(crate) fn lesser(a: Option<u32>, b: Option<u32>) -> Option<u32>
    ensures { result ≡ lesser a b }
{
    match (a, b) {
        (Some(m), Some(n)) => Some(m.min(n)),
        (Some(m), None) => Some(m),
        (None, b) => b,
    }
}

/// Whether nobody waits at this queue, where these wait for room and for an element.
fn is_left(for_room: &NumberSets, for_element: &NumberSets, queue: u8) -> bool
    ensures { OnTrue result (NobodyWaitsAt for_room.now for_element.now queue) }
{
    let index = queue as usize;
    for_room.least(index).is_none() && for_element.least(index).is_none()
}

/// Takes this queue out of those at which somebody waits, if nobody does any more.
fn forget_left(waited: &mut NumberSet, for_room: &NumberSets, for_element: &NumberSets, queue: u8)
    ensures { AreWaitedAt (is_member waited.old) for_room.now for_element.now
        → AreWaitedAt (is_member waited.new) for_room.now for_element.now }
{
    if is_left(for_room, for_element, queue) {
        waited.remove(u32::from(queue));
    }
}

/// The numbers of the fibers that are able, and by queue of those that wait there for room and for an
/// element; and the queues at which somebody waits, so that no other need be looked at. No call but the
/// first takes memory.
#[derive(Drop)]
pub(crate) struct ClassSets {
    able: NumberSet,
    for_room: NumberSets,
    for_element: NumberSets,
    waited: NumberSet,
}

impl Model for ClassSets {
    ghost use Rattle.std.specs.Prelude.{◌≡◌, length};
    ghost use Rattle.fx_plain.specs.NumberSet.{is_member};
    ghost use Rattle.fx_plain.specs.ClassSets.{SetsView, AreWaitedAt};

    ghost Value = { SetsView };

    ghost view = { λ s. record {
      able = s.able;
      for_room = s.for_room;
      for_element = s.for_element;
    } };

    ghost invariant = { λ s. (length s.for_element ≡ length s.for_room)
        × AreWaitedAt (is_member s.waited) s.for_room s.for_element };
}

impl ClassSets {
    /// The sets for so many queues, with no number.
    pub fn new(alloc: Global, queues: usize) -> Result<ClassSets, Memory>
        ensures count { IfOk result (λ sets. length sets.for_room ≡ queues) }
        ensures empty { IfOk result (λ sets. (kind : Kind) (f : ℕ) → members sets kind f ≡ false) }
    {
        Ok(ClassSets {
            able: NumberSet::new(),
            for_room: NumberSets::new(alloc, queues)?,
            for_element: NumberSets::new(alloc, queues)?,
            waited: NumberSet::new(),
        })
    }

    /// Puts a fiber of that class where it is to be.
    // (laid into who calls it, which mostly knows the class)
    #[inline(always)]
    pub fn insert(&mut self, fiber: u32, class: Class)
        requires { fiber < NUMBERS }
        ensures { AreWith true fiber class self.old self.new }
    {
        match class {
            Class::Able => self.able.insert(fiber),
            Class::Waits(Source::Room(queue)) => {
                self.for_room.insert(queue, fiber);
                self.waited.insert(u32::from(queue));
            }
            Class::Waits(Source::Element(queue)) => {
                self.for_element.insert(queue, fiber);
                self.waited.insert(u32::from(queue));
            }
            Class::Unstarted
            | Class::Waits(Source::Nothing | Source::Outcome(_) | Source::Either(..))
            | Class::Over => {}
        }
    }

    /// Takes a fiber of that class out of where it is.
    // (laid in, as `insert` is)
    #[inline(always)]
    pub fn remove(&mut self, fiber: u32, class: Class)
        requires { fiber < NUMBERS }
        ensures { AreWith false fiber class self.old self.new }
    {
        match class {
            Class::Able => self.able.remove(fiber),
            Class::Waits(Source::Room(queue)) => {
                self.for_room.remove(queue, fiber);
                forget_left(&mut self.waited, &self.for_room, &self.for_element, queue);
            }
            Class::Waits(Source::Element(queue)) => {
                self.for_element.remove(queue, fiber);
                forget_left(&mut self.waited, &self.for_room, &self.for_element, queue);
            }
            Class::Unstarted
            | Class::Waits(Source::Nothing | Source::Outcome(_) | Source::Either(..))
            | Class::Over => {}
        }
    }

    /// The least number of a fiber that is able.
    pub fn least_able(&self) -> Option<u32>
        ensures { IsLeastOf (is_member self.now.able) result }
    {
        self.able.least()
    }

    /// The least number from this one on of a queue at which somebody may wait.
    pub fn next_waited(&self, from: u32) -> Option<u32>
        ensures next { IsNextWaited self.now from result }
        ensures few { IfSome result (λ n. n < NUMBERS) }
    {
        self.waited.least_from(from)
    }

    /// The least number of a fiber that waits at this queue for room, if that has some.
    pub fn least_for_room(&self, queue: usize, own: &PlainQueue) -> Option<u32>
        ensures { IsLeastOf (λ f. has_room_in own.now && members self.now (ForRoom queue) f) result }
    {
        if own.has_room() {
            self.for_room.least(queue)
        } else {
            None
        }
    }

    /// The least number of a fiber that waits at this queue for an element, if that has one.
    pub fn least_for_element(&self, queue: usize, own: &PlainQueue) -> Option<u32>
        ensures { IsLeastOf (λ f. has_element_in own.now && members self.now (ForElement queue) f) result }
    {
        if own.has_element() {
            self.for_element.least(queue)
        } else {
            None
        }
    }

    /// The least number of a fiber that waits at this queue for what that has.
    pub fn least_there(&self, queue: usize, own: &PlainQueue) -> Option<u32>
        ensures { IsLeastOf (is_ready_there self.now queue own.now) result }
    {
        lesser(
            self.least_for_room(queue, own),
            self.least_for_element(queue, own),
        )
    }
}
