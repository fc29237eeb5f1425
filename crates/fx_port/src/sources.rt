//! The fibers that wait for outcomes.
ghost use Rattle.fx_port.specs.Marks.{KeepsMarks};

use crate::notes::Notes;
use crate::outcome_rings::OutcomeRings;
use crate::run_brand::RunBrand;
use fx_fiber::Source;
use fx_term::Memory;
use std::alloc::Global;
use std::sync::{Mutex, Wait};

/// Which fibers wait for the outcome of each fiber, behind a lock. Its room is had when it is made.
#[derive(Drop)]
pub struct Sources {
    rings: Mutex<OutcomeRings>,
}

impl Sources {
    /// None of so many fibers waits.
    pub fn new(alloc: Global, fibers: u32) -> Result<Sources, Memory> {
        Ok(Sources {
            rings: Mutex::new(OutcomeRings::new(alloc, fibers)?),
        })
    }

    /// The fiber waits for that from now on.
    pub(crate) fn add<R: Wait>(&self, rt: &R, fiber: u32, source: Source) {
        self.rings.lock(rt).add(fiber, source);
    }

    /// The fiber waits for no outcome any more.
    pub(crate) fn remove<R: Wait>(&self, rt: &R, fiber: u32) {
        self.rings.lock(rt).remove(fiber);
    }

    /// Wakes each fiber that waits for the outcome of that one.
    pub(crate) fn wake<R: Wait, N: RunBrand>(&self, rt: &R, ended: u32, notes: &mut Notes<N>)
        ensures { KeepsMarks notes.old notes.new }
    {
        let mut rings = self.rings.lock(rt);
        for _ in rt.forever() {
            let Some(fiber) = rings.take_first(ended) else {
                return;
            };
            notes.wake(fiber);
        }
    }
}
