//! Fibers that wait or have ended, each in its own bay.
ghost use Rattle.std.specs.Prelude.{◌≡◌, ◌≤◌, ◌<◌, false, map, IfOk, IfSome};
ghost use Rattle.std.specs.List.Sorted.{IsStrictlyIncreasing};
ghost use Rattle.fx_fiber.specs.Fiber.{FiberView, progress};
ghost use Rattle.fx_model.specs.Step.{has_ended};

use crate::resting::Resting;
use fx_fiber::{Fiber, Port};
use fx_term::Memory;
use std::alloc::Global;
use std::marker::Model;
use std::sync::{Mutex, Wait};

/// The bay of one fiber: whether a wake was left for it since it was last taken, and the fiber, if it
/// is there.
#[derive(Drop)]
struct Bay<P: Port> {
    is_woken: bool,
    fiber: Option<Resting<P>>,
}

/// A bay for each fiber number, each behind a small lock, seen as their number.
#[derive(Drop)]
pub struct Lot<P: Port> {
    bays: Vec<Mutex<Bay<P>>>,
}

impl<P: Port> Model for Lot<P> {
    ghost use Rattle.std.specs.Prelude.{ℕ, vec_len};

    ghost Value = { ℕ };

    ghost view = { λ lot. vec_len lot.bays };
}

impl<P: Port + Drop> Lot<P> {
    /// So many empty bays.
    pub fn new(alloc: Global, total: u32) -> Result<Lot<P>, Memory>
        ensures { IfOk result (λ lot. lot ≡ total) }
    {
        let mut bays = Vec::new(alloc);
        bays.reserve(total as usize)?;
        for _ in 0..total {
            bays.push_reserved(Mutex::new(Bay {
                is_woken: false,
                fiber: None,
            }));
        }
        Ok(Lot { bays })
    }

    /// All fibers that are there, ascending by number.
    pub fn empty(self, alloc: Global) -> Result<Vec<Resting<P>>, Memory>
        ensures { IfOk result (λ fibers. IsStrictlyIncreasing
            (map (λ (f : FiberView P). (P.theory.facts f.port).number) fibers.items)) }
    {
        let Lot { bays } = self;
        let mut all = Vec::with_capacity(alloc, bays.len())?;
        let mut next = 0u64;
        for bay in bays {
            let Bay { is_woken: _, fiber } = bay.into_inner();
            let Some(fiber) = fiber else {
                continue;
            };
            // none stands in a bay that is not its own
            let id = u64::from(fiber.id());
            if id < next {
                continue;
            }
            next = id + 1;
            all.push(fiber)?;
        }
        Ok(all)
    }

    /// Lays a fiber down that rests: one that has ended for good, and another until it is woken, as [`Lot::park`] does.
    /// Where the bay of one that has ended is taken, it is let go.
    pub(crate) fn lay<R: Wait>(&self, rt: &R, resting: Resting<P>) -> Option<Fiber<P>>
        requires { P.theory.total ≤ self.now }
        ensures { IfSome result (λ back. back ≡ resting) }
    {
        if !resting.has_ended() {
            return self.park(rt, resting.into_fiber());
        }
        let mut guard = self.bays[resting.id() as usize].lock(rt);
        let bay = &mut *guard;
        if bay.fiber.is_none() {
            bay.fiber = Some(resting);
        }
        None
    }
}

impl<P: Port> Lot<P> {
    /// Parks a fiber that waits. It is given back where a wake was left for it, or its bay is taken.
    pub fn park<R: Wait>(&self, rt: &R, fiber: Fiber<P>) -> Option<Fiber<P>>
        requires { P.theory.total ≤ self.now }
        ensures { IfSome result (λ back. back ≡ fiber) }
    {
        let mut guard = self.bays[fiber.id() as usize].lock(rt);
        let bay = &mut *guard;
        if bay.is_woken || bay.fiber.is_some() {
            bay.is_woken = false;
            return Some(fiber);
        }
        match bay.fiber.replace(Resting::whole(fiber)) {
            None => None,
            Some(_there) => unreachable!(),
        }
    }

    /// Takes the parked fiber of this number out, or leaves a wake.
    pub fn wake<R: Wait>(&self, rt: &R, id: u32) -> Option<Fiber<P>>
        requires { id < self.now }
        ensures number { IfSome result (λ fiber. (P.theory.facts fiber.port).number ≡ id) }
        ensures going { IfSome result (λ fiber. has_ended (progress P.theory.code fiber) ≡ false) }
    {
        let mut guard = self.bays[id as usize].lock(rt);
        let bay = &mut *guard;
        match &bay.fiber {
            Some(resting) if resting.id() == id && !resting.has_ended() => {
                let resting = bay.fiber.take()?;
                Some(resting.into_fiber())
            }
            _ => {
                bay.is_woken = true;
                None
            }
        }
    }

    /// Lays a fiber that has ended down, of which no more is kept there than is needed. It is given back where its bay
    /// is taken.
    pub fn settle<R: Wait>(&self, rt: &R, fiber: Fiber<P>) -> Option<Fiber<P>>
        requires { P.theory.total ≤ self.now }
        ensures { IfSome result (λ back. back ≡ fiber) }
    {
        let mut guard = self.bays[fiber.id() as usize].lock(rt);
        let bay = &mut *guard;
        if bay.fiber.is_some() {
            return Some(fiber);
        }
        match bay.fiber.replace(Resting::without_spare(fiber)) {
            None => None,
            Some(_there) => unreachable!(),
        }
    }
}
