//! A round of workers.
ghost use Rattle.std.specs.Prelude.{◌≡◌, ◌≤◌, ℕ, true, map, vec_len, All, IfOk};
ghost use Rattle.std.specs.List.Sorted.{IsStrictlyIncreasing};
ghost use Rattle.fx_fiber.specs.Fiber.{FiberView};
ghost use Rattle.fx_sched.specs.declared.worker.WorkerEnd.TheVariants.{Done};

use crate::deques::{Hand, Work};
use crate::gate::Gate;
use crate::lot::Lot;
use crate::resting::Resting;
use crate::threads::{jobs, workers};
use crate::worker::WorkerEnd;
use fx_fiber::{Fiber, Port};
use fx_term::{Code, Memory};
use std::alloc::{AllocGlobal, Global};
use std::random::RandomSource;
use std::sync::Wait;
use std::thread::Threads;

/// What is left of a round: the fibers, and what each worker shared with them.
#[derive(Drop)]
pub struct RoundEnd<T, S> {
    pub fibers: Vec<T>,
    pub shared: Vec<S>,
}

/// Runs fibers by a worker for each element of `shared` until none is able to go on, and gives all of
/// them back. One worker is the thread that calls, and each other has a thread of its own: where one of
/// these cannot be started, no fiber has a turn, and it answers `Memory`. At first those that are unable to
/// step are in their bays, where a wake finds them, and the able ones in the deque of the first worker, from
/// which the others steal.
pub fn round<
    R: Wait + Threads + Sync + RandomSource + AllocGlobal,
    P: Port<Shared: Send + Drop> + Send + Drop,
    G: Gate + Sync,
>(
    rt: &R,
    alloc: Global,
    total: u32,
    able: Vec<Fiber<P>>,
    unable: Vec<Resting<P>>,
    shared: Vec<P::Shared>,
    code: &Code,
    gate: &G,
) -> Result<RoundEnd<Resting<P>, P::Shared>, Memory>
    requires code { code.now.nodes ≡ P.theory.code }
    requires total { P.theory.total ≤ total }
    requires gate { (id : ℕ) → G.may gate.now id ≡ true → P.theory.may id ≡ true }
    ensures ascending { IfOk result (λ end. IsStrictlyIncreasing
        (map (λ (f : FiberView P). (P.theory.facts f.port).number) end.fibers.items)) }
    ensures workers { IfOk result (λ end. vec_len end.shared ≡ vec_len shared) }
{
    let lot = Lot::new(alloc, total)?;
    let (all, mut hands) = Work::new(alloc, shared.len())?;
    let back = into_lot(rt, alloc, &lot, unable)?;
    put_first(&mut hands, back)?;
    put_first(&mut hands, able)?;
    let jobs = jobs(alloc, hands, shared)?;
    let ends = workers(rt, alloc, jobs, &all, &lot, code, gate)?;
    let shared = given_back(alloc, ends)?;
    Ok(RoundEnd {
        fibers: lot.empty(alloc)?,
        shared,
    })
}

/// Puts these fibers into the deque of the first worker. `Memory` also where there is no worker.
fn put_first<P: Port + Drop>(hands: &mut [Hand<P>], fibers: Vec<Fiber<P>>) -> Result<(), Memory> {
    for fiber in fibers {
        let Some(first) = hands.first_mut() else {
            return Err(Memory);
        };
        if first.push(fiber).is_err() {
            return Err(Memory);
        }
    }
    Ok(())
}

/// Lays each of these fibers into its bay: one that has ended for good, and another until it is woken.
/// Those that the lot gives back are able to go on.
fn into_lot<R: Wait, P: Port + Drop>(
    rt: &R,
    alloc: Global,
    lot: &Lot<P>,
    unable: Vec<Resting<P>>,
) -> Result<Vec<Fiber<P>>, Memory>
    requires { P.theory.total ≤ lot.now }
{
    let mut able = Vec::new(alloc);
    for resting in unable {
        if let Some(fiber) = lot.lay(rt, resting) {
            able.push(fiber)?;
        }
    }
    Ok(able)
}

/// What the workers shared with their fibers, where none of them ended for want of memory.
fn given_back<P: Port<Shared: Drop> + Drop>(
    alloc: Global,
    ends: Vec<(WorkerEnd<P>, P::Shared)>,
) -> Result<Vec<P::Shared>, Memory>
    ensures shared { IfOk result (λ shared. shared.items ≡ map (λ end. end.1) ends.items) }
    ensures done { IfOk result (λ shared. All (λ end. end.0 ≡ Done) ends.items) }
{
    let mut shared = Vec::new(alloc);
    for (end, one) in ends {
        match end {
            WorkerEnd::Done => shared.push(one)?,
            WorkerEnd::Memory(..) => return Err(Memory),
        }
    }
    Ok(shared)
}
