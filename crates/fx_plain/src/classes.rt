//! The classes of all fibers.
ghost use Rattle.std.specs.Prelude.{◌≡◌, ◌<◌, ◌≤◌, IfOk, IfSome, length, map, replicate, slice_set};
ghost use Rattle.fx_plain.specs.declared.class.Class.TheVariants.{Unstarted, Able, Waits};
ghost use Rattle.fx_plain.specs.NumberSet.{IsLeastOf, IsLeastFrom};
ghost use Rattle.fx_plain.specs.PlainQueue.{have_room, have_element};
ghost use Rattle.fx_plain.specs.Classes.{waits_for_end, class_at_end, is_ready};
ghost use Rattle.fx_plain.specs.ClassSets.{class_at, with_request, with_end, waits_for_room_there, waits_for_element_there};

use crate::class::Class;
use crate::class_sets::{ClassSets, lesser};
use crate::number_set::NUMBERS;
use crate::plain_queue::PlainQueue;
use crate::waiter_blocks::WaiterBlocks;
use fx_fiber::Source;
use fx_term::Memory;
use std::alloc::Global;
use std::marker::Model;

/// The class of each fiber, by its number. The sets beside them spare a search for who is ready, and with
/// the blocks one for those whom an end wakes. A number of no fiber changes nothing, but that an end wakes
/// who waits for it. No call but the first takes memory.
#[derive(Drop)]
pub(crate) struct Classes {
    of: Vec<Class>,
    sets: ClassSets,
    blocks: WaiterBlocks,
}

impl Model for Classes {
    ghost use Rattle.std.specs.Prelude.{◌≤◌, length};
    ghost use Rattle.fx_plain.specs.declared.number_set.TheConstants.{NUMBERS};
    ghost use Rattle.fx_plain.specs.ClassSets.{ClassesView, AreSets};
    ghost use Rattle.fx_plain.specs.WaiterBlocks.{AreMarkedFor};

    ghost Value = { ClassesView };

    ghost view = { λ c. record { of = c.of.items; queues = length c.sets.for_room } };

    ghost invariant = { λ c. (length c.of.items ≤ NUMBERS) × AreSets c.of.items c.sets
        × AreMarkedFor c.of.items c.blocks };
}

impl Classes {
    /// So many fibers, none of which has started, and so many queues.
    pub fn new(alloc: Global, total: u32, queues: usize) -> Result<Classes, Memory>
        requires { total ≤ NUMBERS }
        ensures { IfOk result (λ classes. classes
            ≡ record { of = replicate total Unstarted; queues = queues }) }
    {
        Ok(Classes {
            of: vec![in alloc; Class::Unstarted; total as usize]?,
            sets: ClassSets::new(alloc, queues)?,
            blocks: WaiterBlocks::new(alloc, total)?,
        })
    }

    /// How many fibers there are, started or not.
    pub fn total(&self) -> u32
        ensures { result ≡ length self.now.of }
    {
        self.of.len() as u32
    }

    /// The class of the fiber.
    pub fn class(&self, fiber: u32) -> Class
        ensures { result ≡ class_at self.now.of fiber }
    {
        self.of
            .get(fiber as usize)
            .copied()
            .unwrap_or(Class::Unstarted)
    }

    /// The least number of a fiber that is ready, where the queues are these. It looks at those queues
    /// alone at which somebody waits, and at who waits there only for what the queue has.
    pub fn least(&self, queues: &[PlainQueue]) -> Option<u32>
        requires { length queues.now ≡ self.now.queues }
        ensures { IsLeastOf (λ f. is_ready (have_room queues.now) (have_element queues.now)
            (class_at self.now.of f)) result }
    {
        let mut least = self.sets.least_able();
        let mut from = 0;
        while let Some(queue) = self.sets.next_waited(from) {
            let Some(own) = queues.get(queue as usize) else {
                break;
            };
            least = lesser(least, self.sets.least_there(queue as usize, own));
            from = queue + 1;
        }
        least
    }

    /// The least number of a fiber that waits at this queue for room, if that has some.
    pub fn least_for_room(&self, queue: u8, own: &PlainQueue) -> Option<u32>
        requires { queue < self.now.queues }
        ensures { IsLeastOf (λ f. waits_for_room_there queue own.now (class_at self.now.of f)) result }
    {
        self.sets.least_for_room(queue as usize, own)
    }

    /// The least number of a fiber that waits at this queue for an element, if that has one.
    pub fn least_for_element(&self, queue: u8, own: &PlainQueue) -> Option<u32>
        requires { queue < self.now.queues }
        ensures { IsLeastOf (λ f. waits_for_element_there queue own.now (class_at self.now.of f)) result }
    {
        self.sets.least_for_element(queue as usize, own)
    }

    /// The fiber comes into that class.
    // (laid into who calls it, which knows the class)
    #[inline(always)]
    fn come_into(&mut self, fiber: u32, class: Class)
        requires { fiber < length self.old.of }
        ensures { self.new ≡ record self.old { of = slice_set self.old.of fiber class } }
    {
        self.sets.remove(fiber, self.of[fiber as usize]);
        self.of[fiber as usize] = class;
        self.sets.insert(fiber, class);
        self.blocks.insert(fiber, class);
    }

    /// The fiber may step.
    pub fn become_able(&mut self, fiber: u32)
        ensures { self.new ≡ record self.old { of = slice_set self.old.of fiber Able } }
    {
        match self.of.get(fiber as usize) {
            None | Some(Class::Able) => {}
            Some(_) => self.come_into(fiber, Class::Able),
        }
    }

    /// The fiber waits for that.
    #[inline(always)]
    pub fn wait(&mut self, fiber: u32, source: Source)
        requires { fiber < length self.old.of }
        ensures { self.new
            ≡ record self.old { of = slice_set self.old.of fiber (Waits source) } }
    {
        self.come_into(fiber, Class::Waits(source));
    }

    /// The fiber is requested. One that waits may step then, to see it.
    pub fn request(&mut self, fiber: u32)
        ensures { self.new ≡ record self.old { of = with_request fiber self.old.of } }
    {
        if let Some(Class::Waits(_)) = self.of.get(fiber as usize) {
            self.become_able(fiber);
        }
    }

    /// The fiber has ended. Those that waited for its end may step.
    pub fn end(&mut self, fiber: u32)
        ensures { self.new ≡ record self.old { of = with_end fiber self.old.of } }
    {
        self.wake(fiber);
        if (fiber as usize) < self.of.len() {
            self.come_into(fiber, Class::Over);
        }
    }

    /// The least number from this one on of a fiber that waits for the end of that fiber.
    fn next_waiter(&self, fiber: u32, from: u32) -> Option<u32>
        ensures next { IsLeastFrom from (λ g. waits_for_end fiber (class_at self.now.of g)) result }
        ensures few { IfSome result (λ waiter. waiter < NUMBERS) }
    {
        let mut at = from;
        while let Some(marked) = self.blocks.next_marked(fiber, at) {
            if self.class(marked).waits_for_end(fiber) {
                return Some(marked);
            }
            at = marked + 1;
        }
        None
    }

    /// Those that wait for the end of the fiber may step. In each block of 64 numbers in which somebody ever
    /// waited for this end, it looks at the places of those who did, in whatever block: with one, at that one
    /// alone, and with more at no more than the 64 of each of their blocks, whatever the number of fibers. For
    /// a number of no fiber it looks at all numbers.
    fn wake(&mut self, fiber: u32)
        ensures { self.new ≡ record self.old { of = map (class_at_end fiber) self.old.of } }
    {
        let mut from = 0;
        while let Some(waiter) = self.next_waiter(fiber, from) {
            self.become_able(waiter);
            from = waiter + 1;
        }
    }
}
