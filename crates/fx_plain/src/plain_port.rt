//! The port of a fiber of one thread.
ghost use Rattle.std.specs.Prelude.{◌≡◌};
ghost use Rattle.fx_plain.specs.PlainCalls.{new_port};

use crate::plain_world::PlainWorld;
use crate::put_counts::PutCounts;
use fx_fiber::{Port, Source};
use fx_term::{Begin, CodeBrand, Item, Memory, Offered, Outcome};
use std::alloc::Global;
use std::marker::{Model, PhantomData};
use std::snapshot::Snapshot;

/// The port of a fiber of one thread: its fiber's number, and how many elements that has put into each
/// queue. What it began with, the numbers that it has left, and whether its end was told are known to
/// proofs alone.
#[derive(Drop)]
pub struct PlainPort<J: CodeBrand> {
    id: u32,
    puts: PutCounts,
    begin: Snapshot<Begin>,
    next: Snapshot<u32>,
    has_finished: Snapshot<bool>,
    of: PhantomData<J>,
}

impl<J: CodeBrand> Model for PlainPort<J> {
    ghost use Rattle.fx_plain.specs.PlainCalls.{PortView};

    ghost Value = { PortView };

    ghost view = { λ p. record {
      number = p.id;
      beginning = p.begin.value;
      range = record { next = p.next.value; end = p.begin.value.end };
      put_counts = p.puts.of.items;
      has_finished = p.has_finished.value;
    } };
}

impl<J: CodeBrand> PlainPort<J> {
    /// The port of a fiber of that number that begins so.
    pub(crate) fn new(alloc: Global, id: u32, begin: &Begin) -> PlainPort<J>
        ensures { result ≡ new_port id begin.now }
    {
        PlainPort {
            id,
            puts: PutCounts::new(alloc),
            begin: Snapshot::of(begin),
            next: Snapshot::of(&begin.next),
            has_finished: Snapshot::of(&false),
            of: PhantomData,
        }
    }
}

impl<J: CodeBrand> Port for PlainPort<J> {
    ghost use Rattle.fx_plain.specs.PlainCalls.{plain_theory};

    type Shared = PlainWorld;

    ghost theory = { plain_theory J.nodes };

    fn look(&mut self, world: &mut PlainWorld) -> Option<u64> {
        if !world.is_requested(self.id) {
            return None;
        }
        Some(world.asked(self.id))
    }

    fn request(&mut self, world: &mut PlainWorld, id: u32, stamp: u64) {
        world.request(id, stamp);
    }

    fn peek(&mut self, world: &mut PlainWorld, id: u32) -> Option<(Outcome, u64)> {
        let outcome = world.outcome(id)?;
        Some((outcome, world.ended(id)))
    }

    #[inline(always)]
    fn offer(
        &mut self,
        world: &mut PlainWorld,
        queue: u8,
        value: u64,
        stamp: u64,
    ) -> Result<Offered, Memory> {
        if !world.has_room(queue) {
            return Ok(Offered::Full);
        }
        // both have room before either is changed
        self.puts.reserve(queue)?;
        let item = Item {
            fiber: self.id,
            nth: self.puts.count(queue),
            value,
            stamp,
        };
        world.put(queue, item)?;
        self.puts.add(queue);
        Ok(Offered::Done)
    }

    #[inline(always)]
    fn take(&mut self, world: &mut PlainWorld, queue: u8) -> Option<(u64, u64)> {
        let item = world.take(queue)?;
        Some((item.value, item.stamp))
    }

    fn start(
        &mut self,
        world: &mut PlainWorld,
        id: u32,
        begin: &Begin,
    ) -> Result<PlainPort<J>, Memory> {
        self.next = Snapshot::of(&begin.end);
        world.start(id);
        Ok(PlainPort::new(self.puts.allocator(), id, begin))
    }

    fn finish(&mut self, world: &mut PlainWorld, outcome: Outcome, stamp: u64) {
        self.has_finished = Snapshot::of(&true);
        world.finish(self.id, outcome, stamp);
    }

    fn outside(&mut self, world: &mut PlainWorld, id: u32) {
        world.request_from_outside(id);
    }

    fn wait_on(&mut self, _world: &mut PlainWorld, _source: Source) {
        // who has the fibers finds by the world which of them may step
    }

    #[inline(always)]
    fn goes_on(&self, world: &PlainWorld) -> bool {
        world.is_next(self.id)
    }

    fn woken(_world: &mut PlainWorld) -> Option<u32> {
        None
    }
}
