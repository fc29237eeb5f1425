//! The classes of all fibers, of which one may be woken and not moved yet.
ghost use Rattle.std.specs.Bool.{OnTrue};
ghost use Rattle.std.specs.Prelude.{◌≡◌, ◌<◌, ◌≤◌, IfOk, Some, None, length, replicate, slice_set};
ghost use Rattle.fx_plain.specs.declared.class.Class.TheVariants.{Unstarted, Able, Waits};
ghost use Rattle.fx_plain.specs.NumberSet.{IsLeastOf};
ghost use Rattle.fx_plain.specs.PlainQueue.{have_room, have_element};
ghost use Rattle.fx_plain.specs.Classes.{is_ready};
ghost use Rattle.fx_plain.specs.ClassSets.{class_at, with_request, with_end, waits_for_room_there, waits_for_element_there};
ghost use Rattle.fx_plain.specs.WokenClasses.{with_woken, IsLeastOrAble};

use crate::class::Class;
use crate::class_sets::lesser;
use crate::classes::Classes;
use crate::number_set::NUMBERS;
use crate::plain_queue::PlainQueue;
use fx_fiber::Source;
use fx_term::Memory;
use std::alloc::Global;
use std::marker::Model;

/// The class of each fiber, by its number, as in [`Classes`]. A fiber that is woken where it waits at a
/// queue mostly waits there again after a step or two. So it is kept among those that wait there, and is
/// noted as woken; it is moved only once another fiber is, or where it waits for something else.
#[derive(Drop)]
pub(crate) struct WokenClasses {
    kept: Classes,
    // it is able, whatever is kept of it
    woken: Option<u32>,
}

impl Model for WokenClasses {
    ghost use Rattle.std.specs.Prelude.{◌<◌, IfSome, length};
    ghost use Rattle.fx_plain.specs.ClassSets.{ClassesView};
    ghost use Rattle.fx_plain.specs.WokenClasses.{with_woken};

    ghost Value = { ClassesView };

    ghost view = { λ c. record { of = with_woken c.woken c.kept.of; queues = c.kept.queues } };

    ghost invariant = { λ c. IfSome c.woken (λ f. f < length c.kept.of) };
}

/// Moves the fiber that was woken, if one was, to those who are able.
fn move_woken(kept: &mut Classes, woken: &mut Option<u32>)
    ensures kept { kept.new ≡ record kept.old { of = with_woken woken.old kept.old.of } }
    ensures woken { woken.new ≡ None }
{
    if let Some(fiber) = woken.take() {
        kept.become_able(fiber);
    }
}

/// Whether this fiber was woken, and is kept as one that waits for that.
fn is_kept_as(woken: Option<u32>, kept: &Classes, fiber: u32, source: Source) -> bool
    ensures woken { OnTrue result (woken ≡ Some fiber) }
    ensures kept { OnTrue result (class_at kept.now.of fiber ≡ Waits source) }
{
    let Some(woken) = woken else {
        return false;
    };
    match (kept.class(fiber), source) {
        (Class::Waits(Source::Room(own)), Source::Room(queue)) => woken == fiber && own == queue,
        (Class::Waits(Source::Element(own)), Source::Element(queue)) => {
            woken == fiber && own == queue
        }
        _ => false,
    }
}

impl WokenClasses {
    /// So many fibers, none of which has started, and so many queues.
    pub fn new(alloc: Global, total: u32, queues: usize) -> Result<WokenClasses, Memory>
        requires { total ≤ NUMBERS }
        ensures { IfOk result (λ classes. classes
            ≡ record { of = replicate total Unstarted; queues = queues }) }
    {
        Ok(WokenClasses {
            kept: Classes::new(alloc, total, queues)?,
            woken: None,
        })
    }

    /// How many fibers there are, started or not.
    pub fn total(&self) -> u32
        ensures { result ≡ length self.now.of }
    {
        self.kept.total()
    }

    /// The class of the fiber.
    pub fn class(&self, fiber: u32) -> Class
        ensures { result ≡ class_at self.now.of fiber }
    {
        match self.woken {
            Some(woken) if woken == fiber => Class::Able,
            _ => self.kept.class(fiber),
        }
    }

    /// The least number of a fiber that is ready, where the queues are these.
    #[inline(always)]
    pub fn least(&self, queues: &[PlainQueue]) -> Option<u32>
        requires { length queues.now ≡ self.now.queues }
        ensures { IsLeastOf (λ f. is_ready (have_room queues.now) (have_element queues.now)
            (class_at self.now.of f)) result }
    {
        lesser(self.woken, self.kept.least(queues))
    }

    /// The least number of a fiber that waits at this queue for room, if that has some, or that of one below
    /// which is able.
    pub fn least_for_room(&self, queue: u8, own: &PlainQueue) -> Option<u32>
        requires { queue < self.now.queues }
        ensures { IsLeastOrAble (waits_for_room_there queue own.now) self.now.of result }
    {
        self.kept.least_for_room(queue, own)
    }

    /// The least number of a fiber that waits at this queue for an element, if that has one, or that of one
    /// below which is able.
    pub fn least_for_element(&self, queue: u8, own: &PlainQueue) -> Option<u32>
        requires { queue < self.now.queues }
        ensures { IsLeastOrAble (waits_for_element_there queue own.now) self.now.of result }
    {
        self.kept.least_for_element(queue, own)
    }

    /// The fiber may step. Where it waits at a queue it is not moved yet.
    pub fn become_able(&mut self, fiber: u32)
        ensures { self.new ≡ record self.old { of = slice_set self.old.of fiber Able } }
    {
        move_woken(&mut self.kept, &mut self.woken);
        match self.kept.class(fiber) {
            Class::Waits(Source::Room(_) | Source::Element(_)) => self.woken = Some(fiber),
            _ => self.kept.become_able(fiber),
        }
    }

    /// The fiber waits for that.
    #[inline(always)]
    pub fn wait(&mut self, fiber: u32, source: Source)
        requires { fiber < length self.old.of }
        ensures { self.new
            ≡ record self.old { of = slice_set self.old.of fiber (Waits source) } }
    {
        if is_kept_as(self.woken, &self.kept, fiber, source) {
            self.woken = None;
        } else {
            move_woken(&mut self.kept, &mut self.woken);
            self.kept.wait(fiber, source);
        }
    }

    /// The fiber is requested. One that waits may step then, to see it.
    pub fn request(&mut self, fiber: u32)
        ensures { self.new ≡ record self.old { of = with_request fiber self.old.of } }
    {
        move_woken(&mut self.kept, &mut self.woken);
        self.kept.request(fiber);
    }

    /// The fiber has ended. Those that waited for its end may step.
    pub fn end(&mut self, fiber: u32)
        ensures { self.new ≡ record self.old { of = with_end fiber self.old.of } }
    {
        move_woken(&mut self.kept, &mut self.woken);
        self.kept.end(fiber);
    }
}
