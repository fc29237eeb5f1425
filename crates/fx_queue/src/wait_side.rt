//! One side of a queue, at which fibers wait.

use crate::waiters::Waiters;
use fx_term::Memory;
use std::alloc::Global;
use std::sync::atomic::{AtomicU64, Ordering};
use std::sync::{Mutex, Wait};

/// The fibers that wait at one side of a queue, behind a lock, and a word that says whether any does, so
/// that who finds nobody there takes no lock.
///
/// No wake is lost by that. Each change of the list ends, under the lock, in a store of the word, so from that
/// store on until a fiber is taken off the word says that somebody is listed. A fiber lists itself first, and
/// then tries again before it waits. Who puts or takes does that first, and then loads the word. All these
/// steps are sequentially consistent, those of the ring too, so they stand in one order. Where the load comes
/// before the store, the put or get comes before the second try, which meets it, unless another fiber did.
/// Where it comes after the store, it finds the word set, unless the fiber was taken off meanwhile: by another
/// wake, which then is its own, or by itself as it goes on.
///
/// Nor is a fiber left listed that goes on. Once it has listed itself, the word is 0 only after a change that left
/// nobody listed, and no other fiber lists it: so where it loads 0, it was taken off before.
#[derive(Drop)]
pub(crate) struct WaitSide {
    waiters: Mutex<Waiters>,
    /// 0 where nobody is listed, else 1. It is written under the lock alone.
    listed: AtomicU64,
}

impl WaitSide {
    /// Nobody waits, of so many fibers.
    pub fn new(alloc: Global, fibers: u32) -> Result<WaitSide, Memory> {
        let waiters = Waiters::new(alloc, fibers)?;
        Ok(WaitSide {
            waiters: Mutex::new(waiters),
            listed: AtomicU64::new(0),
        })
    }

    /// Lists the fiber as the last, if it is not listed.
    pub fn add<R: Wait>(&self, rt: &R, fiber: u32) {
        let mut waiters = self.waiters.lock(rt);
        waiters.add(fiber);
        self.tell(&waiters);
    }

    /// Takes the fiber off, and tells whether it was listed. Where nobody is, no lock is taken.
    pub fn remove<R: Wait>(&self, rt: &R, fiber: u32) -> bool {
        if !self.has_any() {
            return false;
        }
        let mut waiters = self.waiters.lock(rt);
        let was_listed = waiters.remove(fiber);
        self.tell(&waiters);
        was_listed
    }

    /// Whether somebody is listed.
    #[inline(always)]
    pub fn has_any(&self) -> bool {
        self.listed.load(Ordering::SeqCst) != 0
    }

    /// Takes off the one that was listed longest, if somebody is. Where nobody is, no lock is taken.
    pub fn take_first<R: Wait>(&self, rt: &R) -> Option<u32> {
        if !self.has_any() {
            return None;
        }
        let mut waiters = self.waiters.lock(rt);
        let first = waiters.take_first();
        self.tell(&waiters);
        first
    }

    fn tell(&self, waiters: &Waiters) {
        let listed = if waiters.is_empty() { 0 } else { 1 };
        self.listed.store(listed, Ordering::SeqCst);
    }
}
