//! A pass that counts its puts.
ghost use Rattle.std.specs.Prelude.{◌≡◌, ◌<◌, ◌≤◌, ◌^◌, [], MatchOption};
ghost use Rattle.crossbeam_queue.specs.Fifo.{Held};
ghost use Rattle.fx_term.specs.Queue.{puts};
ghost use Rattle.fx_queue.specs.Told.{DidPut, DidGet, stands};
ghost use Rattle.fx_queue.specs.Queues.{IsOf, IsSameFiber, kept_pass, given_pass, joined_pass};
ghost use Rattle.fx_port.specs.Rows.{MatchOffered};

use fx_queue::{FiberQueue, QueuePass};
use fx_term::{Item, Offered};
use std::marker::Model;
use std::sync::Wait;

/// A pass, and how often it has put. Contracts see the pass.
#[derive(Drop)]
pub(crate) struct CountedPass {
    pass: QueuePass,
    nth: u64,
}

impl Model for CountedPass {
    ghost use Rattle.std.specs.Prelude.{◌≡◌};
    ghost use Rattle.fx_term.specs.Queue.{puts};
    ghost use Rattle.fx_queue.specs.Queues.{HeldPass};

    ghost Value = { HeldPass };

    ghost view = { λ c. c.pass };

    ghost invariant = { λ c. c.nth ≡ puts c.pass.view.own.acts };
}

impl CountedPass {
    /// A pass that has done nothing yet.
    pub fn new(pass: QueuePass) -> CountedPass
        requires { pass.view.own.acts ≡ [] }
        ensures { result ≡ pass }
    {
        CountedPass { pass, nth: 0 }
    }

    /// The pass alone.
    pub fn into_pass(self) -> QueuePass
        ensures { result ≡ self }
    {
        let CountedPass { pass, nth: _ } = self;
        pass
    }

    #[inline(always)]
    pub fn offer<R: Wait>(
        &mut self,
        rt: &R,
        queue: &FiberQueue,
        fiber: u32,
        value: u64,
        stamp: u64,
    ) -> Offered
        requires queue { IsOf self.old queue.now }
        requires fiber { fiber ≡ self.old.view.own.id }
        requires few { puts self.old.view.own.acts < 2 ^ 63 }
        ensures same { IsSameFiber self.old self.new }
        ensures rule { MatchOffered result
            (DidPut self.old.view value stamp self.new.view)
            ((self.new ≡ self.old) × Held self.old.view.cap (stands self.old.view)) }
    {
        let item = Item {
            fiber,
            nth: self.nth,
            value,
            stamp,
        };
        match queue.offer_as(rt, &mut self.pass, item) {
            Ok(()) => {
                self.nth += 1;
                Offered::Done
            }
            Err(_) => Offered::Full,
        }
    }

    #[inline(always)]
    pub fn take<R: Wait>(&mut self, rt: &R, queue: &FiberQueue) -> Option<Item>
        requires queue { IsOf self.old queue.now }
        ensures same { IsSameFiber self.old self.new }
        ensures rule { MatchOption result
            ((self.new ≡ self.old) × Held 0 (stands self.old.view))
            (λ x. DidGet self.old.view x self.new.view) }
    {
        queue.take_as(rt, &mut self.pass)
    }

    /// The pass of the first number of the range, with those after it up to `end` as its range.
    pub fn split(&mut self, queue: &FiberQueue, id: u32, end: u32) -> CountedPass
        requires queue { IsOf self.old queue.now }
        requires range { (id ≡ self.old.view.own.next) × (id < end) × (end ≤ self.old.view.own.end) }
        ensures kept { self.new ≡ kept_pass end self.old }
        ensures given { result ≡ given_pass end self.old }
    {
        let pass = queue.pass(&mut self.pass, id, end);
        CountedPass { pass, nth: 0 }
    }

    /// The pass takes the other one in.
    pub fn gather(&mut self, queue: &FiberQueue, other: CountedPass)
        requires queue { IsOf self.old queue.now × IsOf other queue.now }
        ensures { self.new ≡ joined_pass self.old other }
    {
        queue.gather(&mut self.pass, other.into_pass());
    }
}
