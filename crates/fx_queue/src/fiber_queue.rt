//! A bounded queue that fibers share.
ghost use Rattle.std.specs.Prelude.{◌≡◌, ◌<◌, ◌≤◌, [], IfOk, MatchResult, MatchOption};
ghost use Rattle.crossbeam_queue.specs.Fifo.{Held};
ghost use Rattle.crossbeam_queue.specs.Passes.{view};
ghost use Rattle.fx_term.specs.Queue.{puts};
ghost use Rattle.fx_queue.specs.PassView.{blank_view, first_view, IsWhole};
ghost use Rattle.fx_queue.specs.Told.{DidPut, DidGet, stands, IsRest};
ghost use Rattle.fx_queue.specs.Queues.{IsOf, IsSameFiber, kept_pass, given_pass, joined_pass};

use crate::pass_view::PassView;
use crate::queue_pass::QueuePass;
use crate::ring_rule::RingRule;
use crate::side::Side;
use crate::steps::{Bounded, Get, Put, Range, SetUp, SplitOff, TakeIn};
use crate::wait_side::WaitSide;
use crossbeam_queue::{Pass, RuledArrayQueue};
use fx_term::{Item, Memory};
use std::alloc::Global;
use std::marker::{Brand, Model};
use std::sync::Wait;

/// A bounded queue (Cats Effect's `Queue.bounded`, without its waiting). Contracts see which ring it
/// is, its capacity, and for how many fibers it is.
#[derive(Drop)]
pub struct FiberQueue {
    ring: RuledArrayQueue<Item, PassView, RingRule>,
    room: WaitSide,
    element: WaitSide,
    alloc: Global,
    fibers: u32,
}

impl Model for FiberQueue {
    ghost use Rattle.fx_queue.specs.Queues.{QueueId};

    ghost Value = { QueueId };

    ghost view = { λ q. record {
      table = q.ring.table.shared.table_id;
      cap = q.ring.cap;
      fibers = q.fibers;
    } };
}

impl FiberQueue {
    /// An empty queue, with room for every fiber as a waiter, and the pass of the main fiber.
    pub fn new(alloc: Global, cap: u32, fibers: u32) -> Result<(FiberQueue, QueuePass), Memory>
        requires { (0 < cap) × (cap ≤ 1024) × (0 < fibers) × (fibers ≤ 4096) }
        ensures { IfOk result (λ r. (r.0.cap ≡ cap) × (r.0.fibers ≡ fibers) × IsOf r.1 r.0
            × (r.1.view ≡ first_view cap fibers)) }
    {
        let room = WaitSide::new(alloc, fibers)?;
        let element = WaitSide::new(alloc, fibers)?;
        let Ok((ring, blank)) = RuledArrayQueue::ruled(alloc, cap as usize) else {
            return Err(Memory);
        };
        let queue = FiberQueue {
            ring,
            room,
            element,
            alloc,
            fibers,
        };
        let pass = queue.set_up::<Brand>(blank);
        Ok((queue, pass))
    }

    /// The pass that was made with the ring, now that the ring has its capacity.
    fn set_up<B: Bounded>(&self, mut blank: Pass<Item, PassView>) -> QueuePass
        requires pass { (blank.table_id ≡ self.now.table) × (blank.me.1 ≡ [])
            × (view blank ≡ blank_view) }
        requires fibers { 0 < B.fibers }
        ensures { (result.table ≡ self.now.table) × (result.view ≡ first_view B.cap B.fibers) }
    {
        let _nobody = self.ring.another::<SetUp<B>>(&mut blank);
        QueuePass { pass: blank }
    }

    /// The pass of the first number of the range, with those after it up to `end` as its range. The old
    /// pass keeps the range from `end` on.
    pub fn pass(&self, pass: &mut QueuePass, fiber: u32, end: u32) -> QueuePass
        requires queue { IsOf pass.old self.now }
        requires range { (fiber ≡ pass.old.view.own.next) × (fiber < end)
            × (end ≤ pass.old.view.own.end) }
        ensures kept { pass.new ≡ kept_pass end pass.old }
        ensures given { result ≡ given_pass end pass.old }
    {
        self.pass_as::<Brand>(pass, fiber, end)
    }

    fn pass_as<B: Range>(&self, pass: &mut QueuePass, _fiber: u32, end: u32) -> QueuePass
        requires given { end ≡ B.end }
        requires queue { IsOf pass.old self.now }
        requires range { (pass.old.view.own.next < end) × (end ≤ pass.old.view.own.end) }
        ensures kept { pass.new ≡ kept_pass end pass.old }
        ensures given { result ≡ given_pass end pass.old }
    {
        let other = self.ring.another::<SplitOff<B>>(&mut pass.pass);
        QueuePass { pass: other }
    }

    /// Puts the item at the back (`tryOffer`). Its `nth` is how often its fiber has put here before, and
    /// its `stamp` that of this put, which comes out with it. It comes back only where a legal history
    /// leaves the queue full, and then nothing has changed. That history is told by itself, behind this
    /// one refusal: what other passes do in it is not told to be what they did. That one history has the
    /// puts and gets of all passes is what `close` says.
    #[inline(always)]
    pub fn offer_as<R: Wait>(&self, rt: &R, pass: &mut QueuePass, item: Item) -> Result<(), Item>
        requires queue { IsOf pass.old self.now }
        requires item { (item.fiber ≡ pass.old.view.own.id)
            × (item.nth ≡ puts pass.old.view.own.acts) }
        ensures same { IsSameFiber pass.old pass.new }
        ensures rule { MatchResult result
            (λ _. DidPut pass.old.view item.value item.stamp pass.new.view)
            (λ x. (x ≡ item) × (pass.new ≡ pass.old)
            × Held pass.old.view.cap (stands pass.old.view)) }
    {
        self.ring.push_as::<Put, R>(rt, &mut pass.pass, item)
    }

    /// Takes the front (`tryTake`). `None` comes only where a legal history leaves the queue empty, told
    /// by itself as that of a refused offer is, and then nothing has changed.
    #[inline(always)]
    pub fn take_as<R: Wait>(&self, rt: &R, pass: &mut QueuePass) -> Option<Item>
        requires queue { IsOf pass.old self.now }
        ensures same { IsSameFiber pass.old pass.new }
        ensures rule { MatchOption result
            ((pass.new ≡ pass.old) × Held 0 (stands pass.old.view))
            (λ x. DidGet pass.old.view x pass.new.view) }
    {
        self.ring.pop_as::<Get, R>(rt, &mut pass.pass)
    }

    /// The pass takes the other one in.
    pub fn gather(&self, pass: &mut QueuePass, other: QueuePass)
        requires queue { IsOf pass.old self.now × IsOf other self.now }
        ensures { pass.new ≡ joined_pass pass.old other }
    {
        let QueuePass { pass: theirs } = other;
        self.ring.absorb::<TakeIn>(&mut pass.pass, theirs);
    }

    /// Gives the queue up, by the main fiber's pass, which has gathered all that were split off: what is
    /// left, from front to back.
    pub fn close<R: Wait>(self, rt: &R, pass: QueuePass) -> Result<Vec<Item>, Memory>
        requires queue { IsOf pass self }
        requires whole { IsWhole pass.view }
        ensures { IfOk result (λ rest. IsRest pass.view rest.items) }
    {
        self.rest(rt, pass)
    }

    /// Takes until nothing is found. Nobody else has a pass any more.
    fn rest<R: Wait>(&self, rt: &R, mut pass: QueuePass) -> Result<Vec<Item>, Memory>
        requires queue { IsOf pass self.now }
        requires whole { IsWhole pass.view }
        ensures { IfOk result (λ rest. IsRest pass.view rest.items) }
    {
        let mut rest = Vec::new(self.alloc);
        'taking: for _ in rt.forever() {
            match self.take_as(rt, &mut pass) {
                None => return Ok(rest),
                Some(item) => match rest.push(item) {
                    Ok(()) => {}
                    Err(_) => return Err(Memory),
                },
            }
        }
        unreachable!()
    }

    /// Lists the fiber at that side, as the last, if it is not listed there.
    pub fn wait<R: Wait>(&self, rt: &R, fiber: u32, side: Side)
        requires { fiber < self.now.fibers }
    {
        self.side(side).add(rt, fiber);
    }

    /// Takes the fiber off that side, and tells whether it was still listed there.
    pub fn unwait<R: Wait>(&self, rt: &R, fiber: u32, side: Side) -> bool
        requires { fiber < self.now.fibers }
    {
        self.side(side).remove(rt, fiber)
    }

    /// Whether a fiber is listed at that side. Mostly none is: who asks this first makes no call that could
    /// wait for the lock.
    #[inline(always)]
    pub fn has_waiter(&self, side: Side) -> bool {
        self.side(side).has_any()
    }

    /// Takes the fiber off that side that was listed there longest, if there is one.
    pub fn next_waiter<R: Wait>(&self, rt: &R, side: Side) -> Option<u32> {
        self.side(side).take_first(rt)
    }

    #[inline(always)]
    fn side(&self, side: Side) -> &WaitSide {
        match side {
            Side::Room => &self.room,
            Side::Element => &self.element,
        }
    }
}
