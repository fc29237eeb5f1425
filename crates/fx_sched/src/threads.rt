//! The workers of a round, each on its thread.
ghost use Rattle.std.specs.Prelude.{◌≡◌, ◌+◌, ◌≤◌, ℕ, true, vec_len, IfOk};

use crate::deques::{Owner, Work};
use crate::gate::Gate;
use crate::lot::Lot;
use crate::worker::{WorkerEnd, work};
use fx_fiber::{Fiber, Port};
use fx_term::{Code, Memory};
use std::alloc::{AllocGlobal, Global};
use std::random::RandomSource;
use std::sync::{RwLock, Wait};
use std::thread;
use std::thread::{JoinHandle, Threads};

/// What a worker begins with.
#[derive(Drop)]
pub(crate) struct Job<T, S> {
    worker: u32,
    hand: Owner<T>,
    shared: S,
}

/// Whether the workers of a round begin.
#[derive(Clone, Copy)]
enum Start {
    /// Some have no thread.
    GivenUp,
    /// Each has its thread.
    Given,
}

/// What each worker begins with, numbered from 0.
pub(crate) fn jobs<T: Drop, S: Drop>(
    alloc: Global,
    hands: Vec<Owner<T>>,
    shared: Vec<S>,
) -> Result<Vec<Job<T, S>>, Memory>
    requires { vec_len hands ≡ vec_len shared }
    ensures { IfOk result (λ jobs. vec_len jobs ≡ vec_len shared) }
{
    let mut jobs = Vec::new(alloc);
    let mut worker = 0u32;
    for (hand, shared) in hands.into_iter().zip(shared) {
        jobs.push(Job {
            worker,
            hand,
            shared,
        })?;
        worker = worker.wrapping_add(1);
    }
    Ok(jobs)
}

/// How a worker ended that began with this, and what it shared with its fibers: none where the workers do not
/// begin.
fn ends<R: Wait + RandomSource + AllocGlobal, P: Port<Shared: Drop> + Drop, G: Gate>(
    rt: &R,
    job: Job<Fiber<P>, P::Shared>,
    start: &RwLock<Start>,
    all: &Work<P>,
    lot: &Lot<P>,
    code: &Code,
    gate: &G,
) -> Option<(WorkerEnd<P>, P::Shared)>
    requires code { code.now.nodes ≡ P.theory.code }
    requires total { P.theory.total ≤ lot.now }
    requires gate { (id : ℕ) → G.may gate.now id ≡ true → P.theory.may id ≡ true }
{
    let Job {
        worker,
        mut hand,
        mut shared,
    } = job;
    let start = *start.read(rt);
    match start {
        Start::Given => {
            let end = work(rt, worker, &mut hand, all, lot, code, &mut shared, gate);
            Some((end, shared))
        }
        Start::GivenUp => None,
    }
}

/// The ends that are told, and behind them those of these threads.
fn joined<R: Threads, T: Drop>(
    rt: &R,
    threads: Vec<JoinHandle<Option<T>>>,
    mut told: Vec<T>,
) -> Result<Vec<T>, Memory>
    ensures { IfOk result (λ all. vec_len all ≡ vec_len told + vec_len threads) }
{
    for thread in threads {
        let Some(end) = thread.join(rt) else {
            return Err(Memory);
        };
        told.push(end)?;
    }
    Ok(told)
}

/// Runs all workers: the first on this thread, and each other on one of its own. They find the lock taken until
/// each has its thread; where one cannot be started, the lock goes as it is, and they give up.
pub(crate) fn workers<
    R: Wait + Threads + Sync + RandomSource + AllocGlobal,
    P: Port<Shared: Send + Drop> + Send + Drop,
    G: Gate + Sync,
>(
    rt: &R,
    alloc: Global,
    jobs: Vec<Job<Fiber<P>, P::Shared>>,
    all: &Work<P>,
    lot: &Lot<P>,
    code: &Code,
    gate: &G,
) -> Result<Vec<(WorkerEnd<P>, P::Shared)>, Memory>
    requires code { code.now.nodes ≡ P.theory.code }
    requires total { P.theory.total ≤ lot.now }
    requires gate { (id : ℕ) → G.may gate.now id ≡ true → P.theory.may id ≡ true }
    ensures { IfOk result (λ ends. vec_len ends ≡ vec_len jobs) }
{
    let start = RwLock::new(Start::GivenUp);
    let start = &start;
    thread::scope(
        thread::scope_env(),
        rt,
        move |scope| -> Result<Vec<(WorkerEnd<P>, P::Shared)>, Memory>
            requires { (code.now.nodes ≡ P.theory.code) × (P.theory.total ≤ lot.now)
                × ((id : ℕ) → G.may gate.now id ≡ true → P.theory.may id ≡ true) }
            ensures { IfOk result (λ ends. vec_len ends ≡ vec_len jobs) }
        {
            let count = jobs.len();
            let mut jobs = jobs.into_iter();
            let Some(own) = jobs.next() else {
                return Ok(Vec::new(alloc));
            };
            let mut guard = start.write(rt);
            let mut threads = Vec::new(alloc);
            for job in jobs {
                let Ok(thread) = scope.spawn(move || ends(rt, job, start, all, lot, code, gate))
                else {
                    return Err(Memory);
                };
                threads.push(thread)?;
            }
            // (room for all, so that none is lost for want of it)
            let mut told = Vec::with_capacity(alloc, count)?;
            *guard = Start::Given;
            drop(guard);
            let Some(end) = ends(rt, own, start, all, lot, code, gate) else {
                return Err(Memory);
            };
            told.push(end)?;
            joined(rt, threads, told)
        },
    )
}
