//! How many elements a fiber has put into each queue.
ghost use Rattle.std.specs.Prelude.{◌≡◌, ◌+◌, ◌-◌, ◌^◌, ◌<◌, ◌≤◌, ◌++◌, [], OnOk, length, replicate, slice_index};
ghost use Rattle.std.specs.Prelude.{vec_capacity};
ghost use Rattle.std.specs.Vec.{vec_allocator};
ghost use Rattle.fx_plain.specs.PutCounts.{reaching, one_more_put};

use fx_term::Memory;
use std::alloc::Global;

/// How many elements a fiber has put into each queue, by number: 0 past the list. A fiber that has put
/// nothing takes no memory for it.
#[derive(Drop)]
pub(crate) struct PutCounts {
    of: Vec<u64>,
}

impl PutCounts {
    /// Those of a fiber that has put nothing.
    pub fn new(alloc: Global) -> PutCounts
        ensures { result.of.items ≡ [] }
    {
        PutCounts {
            of: Vec::new(alloc),
        }
    }

    /// What its memory is of.
    pub fn allocator(&self) -> Global
        ensures { result ≡ vec_allocator self.now.of }
    {
        *self.of.allocator()
    }

    /// How many it has put into this queue.
    pub fn count(&self, queue: u8) -> u64
        ensures { result ≡ slice_index self.now.of.items queue }
    {
        self.of.get(queue as usize).copied().unwrap_or(0)
    }

    /// Has memory for the count of this queue.
    pub fn reserve(&mut self, queue: u8) -> Result<(), Memory>
        ensures same { self.new.of.items ≡ self.old.of.items }
        ensures room { OnOk result (queue < vec_capacity self.new.of) }
    {
        let long = queue as usize + 1;
        if self.of.len() < long {
            self.of.reserve(long - self.of.len())?;
        }
        Ok(())
    }

    /// Has a count for this queue.
    fn reach(&mut self, queue: u8)
        requires { queue < vec_capacity self.old.of }
        ensures { self.new.of.items ≡ reaching queue self.old.of.items }
    {
        let long = queue as usize + 1;
        if self.of.len() < long {
            let Ok(()) = self.of.resize(long, 0) else {
                unreachable!();
            };
        }
    }

    /// Counts one more for this queue.
    pub fn add(&mut self, queue: u8)
        requires room { queue < vec_capacity self.old.of }
        requires fits { slice_index self.old.of.items queue + 1 < 2 ^ 64 }
        ensures { self.new.of.items ≡ one_more_put queue self.old.of.items }
    {
        self.reach(queue);
        self.of[queue as usize] += 1;
    }
}
