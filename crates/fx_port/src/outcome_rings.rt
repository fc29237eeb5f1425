//! The rings of those that wait for outcomes.

use fx_fiber::Source;
use fx_term::Memory;
use std::alloc::Global;

/// A spot in a ring.
#[derive(Clone, Copy, PartialEq, Eq)]
enum Spot {
    /// Where the ring of those that wait for the outcome of this fiber begins and ends.
    Head(u32),
    /// This fiber, as one that waits for an outcome, or for the first of two.
    One(u32),
    /// This fiber, as one that waits for the second of two.
    Other(u32),
}

/// What stands before a spot and after it. A spot that is alone is its own neighbour.
#[derive(Clone, Copy)]
struct Neighbours {
    before: Spot,
    after: Spot,
}

/// For each fiber the ring of those that wait for its outcome, the one that was listed longest first. A
/// fiber that waits stands in one ring, or in two where either of two outcomes will do. No call costs more
/// where there are more fibers, and none but `new` takes memory.
#[derive(Drop)]
pub(crate) struct OutcomeRings {
    heads: Vec<Neighbours>,
    ones: Vec<Neighbours>,
    others: Vec<Neighbours>,
}

impl OutcomeRings {
    /// None of so many fibers waits.
    pub fn new(alloc: Global, fibers: u32) -> Result<OutcomeRings, Memory> {
        let mut heads = Vec::new(alloc);
        let mut ones = Vec::new(alloc);
        let mut others = Vec::new(alloc);
        for id in 0..fibers {
            heads.push(alone(Spot::Head(id)))?;
            ones.push(alone(Spot::One(id)))?;
            others.push(alone(Spot::Other(id)))?;
        }
        Ok(OutcomeRings {
            heads,
            ones,
            others,
        })
    }

    /// Lists the fiber with each fiber whose outcome that is, as the last, and nowhere else.
    pub fn add(&mut self, fiber: u32, source: Source) {
        self.remove(fiber);
        match source {
            Source::Outcome(one) => self.list(Spot::One(fiber), one),
            Source::Either(one, other) => {
                self.list(Spot::One(fiber), one);
                self.list(Spot::Other(fiber), other);
            }
            Source::Room(_) | Source::Element(_) | Source::Nothing => {}
        }
    }

    /// Takes the fiber off wherever it is listed.
    pub fn remove(&mut self, fiber: u32) {
        self.take_off(Spot::One(fiber));
        self.take_off(Spot::Other(fiber));
    }

    /// Takes off the fiber that was listed longest with that one, if one is.
    pub fn take_first(&mut self, awaited: u32) -> Option<u32> {
        let first = self.neighbours(Spot::Head(awaited)).after;
        match first {
            Spot::One(fiber) | Spot::Other(fiber) => {
                self.take_off(first);
                Some(fiber)
            }
            Spot::Head(_) => None,
        }
    }

    fn list(&mut self, spot: Spot, awaited: u32) {
        let head = Spot::Head(awaited);
        let last = self.neighbours(head).before;
        self.link(last, spot);
        self.link(spot, head);
    }

    /// Takes the spot out of its ring. Mostly it is alone in it: most wait for no second outcome, and one that is
    /// woken has been taken out.
    fn take_off(&mut self, spot: Spot) {
        let Neighbours { before, after } = self.neighbours(spot);
        if before == spot {
            return;
        }
        self.link(before, after);
        self.link(spot, spot);
    }

    /// Makes the two neighbours.
    fn link(&mut self, before: Spot, after: Spot) {
        if let Some(neighbours) = self.neighbours_mut(before) {
            neighbours.after = after;
        }
        if let Some(neighbours) = self.neighbours_mut(after) {
            neighbours.before = before;
        }
    }

    /// The neighbours of a spot; of one that there is not, those of one that is alone.
    fn neighbours(&self, spot: Spot) -> Neighbours {
        let found = match spot {
            Spot::Head(id) => self.heads.get(id as usize),
            Spot::One(id) => self.ones.get(id as usize),
            Spot::Other(id) => self.others.get(id as usize),
        };
        match found {
            Some(neighbours) => *neighbours,
            None => alone(spot),
        }
    }

    fn neighbours_mut(&mut self, spot: Spot) -> Option<&mut Neighbours> {
        match spot {
            Spot::Head(id) => self.heads.get_mut(id as usize),
            Spot::One(id) => self.ones.get_mut(id as usize),
            Spot::Other(id) => self.others.get_mut(id as usize),
        }
    }
}

fn alone(spot: Spot) -> Neighbours {
    Neighbours {
        before: spot,
        after: spot,
    }
}
