//! A port over an outside that has been used by others: there are a request, ends and elements, each with a
//! stamp of its own. It keeps the stamps that it is told.
ghost use Rattle.std.specs.Prelude.{◌≡◌, ◌^◌, true, false};

use fx_fiber::{Port, Source};
use fx_term::{Begin, CodeBrand, Memory, Offered, Outcome};
use std::alloc::Global;
use std::marker::PhantomData;

/// The stamps of what is found outside.
#[derive(Clone, Copy)]
pub struct Found {
    /// Of a request of each fiber, which comes with the first offer.
    pub request: Option<u64>,
    /// Of the end of each fiber, which succeeded with 5.
    pub end: Option<u64>,
    /// Of each element of each queue, a 5.
    pub element: Option<u64>,
}

/// The stamps that were told last.
#[derive(Clone, Copy, PartialEq, Eq)]
pub struct Told {
    pub offer: Option<u64>,
    pub request: Option<u64>,
    pub start: Option<u64>,
    pub finish: Option<u64>,
}

/// What is found outside, and what it was told.
#[derive(Clone, Copy)]
pub struct Outside {
    pub found: Found,
    pub told: Told,
}

/// The port of a fiber over that. Each queue has room.
#[derive(Drop)]
pub struct OutsidePort<J: CodeBrand> {
    alloc: Global,
    id: u32,
    begin: Begin,
    next: u32,
    has_ended: bool,
    puts: u64,
    of: PhantomData<J>,
}

impl<J: CodeBrand> OutsidePort<J> {
    /// The port of a fiber of this number that begins so.
    pub fn new(alloc: Global, id: u32, begin: Begin) -> OutsidePort<J>
        ensures id { result.id ≡ id }
        ensures begin { result.begin ≡ begin }
        ensures next { result.next ≡ begin.next }
        ensures going { result.has_ended ≡ false }
        ensures puts { result.puts ≡ 0 }
    {
        OutsidePort {
            alloc,
            id,
            next: begin.next,
            begin,
            has_ended: false,
            puts: 0,
            of: PhantomData,
        }
    }
}

impl<J: CodeBrand> Port for OutsidePort<J> {
    type Shared = Outside;

    ghost theory = { record {
      code = J.nodes;
      total = 2 ^ 32;
      may = λ id. true;
      calls = record {
        looks = λ p s found p' s'. Unit {0};
        requests = λ p s id stamp p' s'. Unit {0};
        peeks = λ p s id end p' s'. Unit {0};
        offers = λ p s queue n stamp answer p' s'. Unit {0};
        takes = λ p s queue element p' s'. Unit {0};
        starts = λ p s id begin child p' s'. Unit {0};
        finishes = λ p s outcome stamp p' s'. Unit {0};
        outsides = λ p s id p' s'. Unit {0};
        waits = λ p s source p' s'. Unit {0};
        goes_on = λ p s. Unit {0};
        wakes = λ s woken s'. Unit {0};
      };
      facts = λ p. record {
        number = p.id;
        beginning = p.begin;
        range = record { next = p.next; end = p.begin.end };
        has_finished = p.has_ended;
        puts = p.puts;
      };
      agrees = λ p deeds. Unit {0};
    } };

    fn look(&mut self, outside: &mut Outside) -> Option<u64> {
        if outside.told.offer.is_none() {
            return None;
        }
        outside.found.request
    }

    fn request(&mut self, outside: &mut Outside, _id: u32, stamp: u64) {
        outside.told.request = Some(stamp);
    }

    fn peek(&mut self, outside: &mut Outside, _id: u32) -> Option<(Outcome, u64)> {
        let stamp = outside.found.end?;
        Some((Outcome::Succeeded(5), stamp))
    }

    fn offer(
        &mut self,
        outside: &mut Outside,
        _queue: u8,
        _value: u64,
        stamp: u64,
    ) -> Result<Offered, Memory> {
        outside.told.offer = Some(stamp);
        self.puts += 1;
        Ok(Offered::Done)
    }

    fn take(&mut self, outside: &mut Outside, _queue: u8) -> Option<(u64, u64)> {
        let stamp = outside.found.element?;
        Some((5, stamp))
    }

    fn start(&mut self, outside: &mut Outside, id: u32, begin: &Begin) -> Result<Self, Memory> {
        let child = OutsidePort::new(self.alloc, id, begin.copied(self.alloc)?);
        outside.told.start = Some(begin.stamp);
        self.next = begin.end;
        Ok(child)
    }

    fn finish(&mut self, outside: &mut Outside, _outcome: Outcome, stamp: u64) {
        self.has_ended = true;
        outside.told.finish = Some(stamp);
    }

    fn outside(&mut self, _outside: &mut Outside, _id: u32) {}

    fn wait_on(&mut self, _outside: &mut Outside, _source: Source) {}

    fn goes_on(&self, _outside: &Outside) -> bool {
        true
    }

    fn woken(_outside: &mut Outside) -> Option<u32> {
        None
    }
}
