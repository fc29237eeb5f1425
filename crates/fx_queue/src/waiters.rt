//! The fibers that wait at one side of a queue.

use crate::wait_ring::WaitRing;
use fx_term::Memory;
use std::alloc::Global;
use std::marker::Model;

/// The ring, in which each fiber is listed at most once. There is room for all from the start.
#[derive(Drop)]
pub struct Waiters {
    ring: WaitRing,
}

impl Model for Waiters {
    ghost use Rattle.std.specs.Prelude.{ℕ, List};
    ghost use Rattle.fx_queue.specs.WaitRing.{Lists};

    ghost Value = { ℕ };

    ghost view = { λ w. w.ring.head };

    ghost invariant = { λ w. (xs : List ℕ) × Lists w.ring.links.items w.ring.head xs };
}

impl Waiters {
    /// Nobody waits, of so many fibers.
    pub fn new(alloc: Global, fibers: u32) -> Result<Waiters, Memory> {
        let ring = WaitRing::new(alloc, fibers)?;
        Ok(Waiters { ring })
    }

    /// Whether nobody is listed.
    pub fn is_empty(&self) -> bool {
        self.ring.is_empty()
    }

    /// Lists the fiber as the last, if it is not listed.
    pub fn add(&mut self, fiber: u32) {
        self.ring.add(fiber);
    }

    /// Takes the fiber off, and tells whether it was listed.
    pub fn remove(&mut self, fiber: u32) -> bool {
        self.ring.remove(fiber)
    }

    /// Takes off the one that was listed longest, if somebody is.
    pub fn take_first(&mut self) -> Option<u32> {
        self.ring.take_first()
    }
}
