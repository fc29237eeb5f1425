//! The rounds of a run on threads.
ghost use Rattle.std.specs.Prelude.{◌≡◌, ◌≤◌, ℕ, true, [], ◌∷◌, map, vec_len, IfOk};
ghost use Rattle.std.specs.List.Sorted.{IsStrictlyIncreasing};
ghost use Rattle.fx_term.specs.Script.{total};
ghost use Rattle.fx_text.specs.View.{meaning};
ghost use Rattle.fx_report.specs.Script.{script_of};
ghost use Rattle.fx_fiber.specs.Fiber.{FiberView};
ghost use Rattle.fx_port.specs.PortView.{PortView};
ghost use Rattle.fx_run.specs.Sweep.{NoneCanGo, IsSwept};

use crate::sweep::{Swept, closed_between, sweep};
use fx_fiber::Fiber;
use fx_port::{Notes, RunBrand, ThreadPort};
use fx_sched::{Gate, Resting, round};
use fx_term::Memory;
use fx_text::Script;
use std::alloc::{AllocGlobal, Global};
use std::random::RandomSource;
use std::sync::Wait;
use std::thread::Threads;

/// The fibers of a run that has ended, and how many waiting ones only a sweep put back.
#[derive(Drop)]
pub struct RanFibers<'a, R: Wait, N: RunBrand> {
    pub fibers: Vec<Resting<ThreadPort<'a, R, N>>>,
    pub late: u64,
}

/// What is left of a round that was swept: the fibers, and what each worker shared with them.
#[derive(Drop)]
struct SweptRound<'a, R: Wait, N: RunBrand> {
    swept: Swept<ThreadPort<'a, R, N>>,
    shared: Vec<Notes<N>>,
}

/// Runs the main fiber and those that come of it by a worker for each element of `shared`, in rounds.
/// After each the fibers are swept: those that can step, by what all have come to, are able again in the
/// next one, and where there is none the run has ended.
pub fn run_rounds<
    'a,
    R: Wait + Threads + Sync + RandomSource + AllocGlobal,
    N: RunBrand + Send + Sync,
    G: Gate + Sync,
>(
    rt: &R,
    alloc: Global,
    script: &Script,
    main: Fiber<ThreadPort<'a, R, N>>,
    shared: Vec<Notes<N>>,
    gate: &G,
) -> Result<RanFibers<'a, R, N>, Memory>
    requires code { script.now.code.nodes ≡ N.nodes }
    requires total { N.words.fibers ≤ total (script_of (meaning script.now)) }
    requires gate { (id : ℕ) → G.may gate.now id ≡ true → N.may id ≡ true }
    ensures ascending { IfOk result (λ ran. IsStrictlyIncreasing
        (map (λ (f : FiberView PortView). f.port.words.own.id) ran.fibers.items)) }
    ensures settled { IfOk result
        (λ ran. NoneCanGo N.nodes (script_of (meaning script.now)) ran.fibers.items) }
{
    let mut swept = first(alloc, main)?;
    let mut shared = shared;
    let mut late = 0u64;
    for _ in rt.forever() {
        let next = swept_round(rt, alloc, script, swept, shared, gate)?;
        if next.swept.able.is_empty() {
            return Ok(RanFibers {
                fibers: next.swept.unable,
                late,
            });
        }
        late = late.saturating_add(next.swept.able.len() as u64);
        swept = next.swept;
        shared = next.shared;
    }
    unreachable!()
}

/// At first the main fiber is able.
fn first<'a, R: Wait, N: RunBrand>(
    alloc: Global,
    main: Fiber<ThreadPort<'a, R, N>>,
) -> Result<Swept<ThreadPort<'a, R, N>>, Memory>
    ensures able { IfOk result (λ swept. swept.able.items ≡ main.entry ∷ []) }
    ensures unable { IfOk result (λ swept. swept.unable.items ≡ []) }
{
    let mut able = Vec::new(alloc);
    able.push(main)?;
    Ok(Swept {
        able,
        unable: Vec::new(alloc),
    })
}

/// Runs a round of these fibers, and sweeps them.
fn swept_round<
    'a,
    R: Wait + Threads + Sync + RandomSource + AllocGlobal,
    N: RunBrand + Send + Sync,
    G: Gate + Sync,
>(
    rt: &R,
    alloc: Global,
    script: &Script,
    fibers: Swept<ThreadPort<'a, R, N>>,
    shared: Vec<Notes<N>>,
    gate: &G,
) -> Result<SweptRound<'a, R, N>, Memory>
    requires code { script.now.code.nodes ≡ N.nodes }
    requires total { N.words.fibers ≤ total (script_of (meaning script.now)) }
    requires gate { (id : ℕ) → G.may gate.now id ≡ true → N.may id ≡ true }
    ensures swept { IfOk result (λ left. IsSwept N.nodes (script_of (meaning script.now))
        left.swept.able.items left.swept.unable.items) }
    ensures workers { IfOk result (λ left. vec_len left.shared ≡ vec_len shared) }
{
    let Swept { able, unable } = fibers;
    let end = round(
        rt,
        alloc,
        script.total(),
        able,
        unable,
        shared,
        &script.code,
        gate,
    )?;
    let closed = closed_between(alloc, script, &end.fibers)?;
    Ok(SweptRound {
        swept: sweep(alloc, &script.code, &closed, end.fibers)?,
        shared: end.shared,
    })
}
