//! Rounds of four workers.
ghost use Rattle.std.specs.Prelude.{◌≡◌, ◌≤◌, ℕ, true, false};

use crate::play::{Plan, play};
use crate::steps::{last_events, start};
use fx_fiber::{Fiber, Port};
use fx_sched::{Free, Gate, Resting, round};
use fx_term::{Arg, Code, Event, Memory, Node, NodeId, Outcome};
use std::alloc::{AllocGlobal, Global};
use std::random::RandomSource;
use std::sync::Wait;
use std::sync::atomic::{AtomicU64, Ordering};
use std::test::Fail;
use std::thread;
use std::thread::Threads;

/// Those that the main fiber starts by so many steps, each once it waits or has ended.
fn started<P: Port + Drop>(
    alloc: Global,
    main: &mut Fiber<P>,
    starts: u32,
    code: &Code,
    shared: &mut P::Shared,
) -> Result<Vec<Resting<P>>, Memory>
    requires code { code.now.nodes ≡ P.theory.code }
{
    let mut unable = Vec::new(alloc);
    for _ in 0..starts {
        if let Some(child) = start(main, code, shared)? {
            unable.push(Resting::without_spare(child))?;
        }
    }
    Ok(unable)
}

fn alone<P: Port + Drop>(alloc: Global, fiber: Fiber<P>) -> Result<Vec<Fiber<P>>, Memory> {
    let mut fibers = Vec::new(alloc);
    fibers.push(fiber)?;
    Ok(fibers)
}

/// The main fiber after that, and those.
fn begun<P: Port + Drop>(
    alloc: Global,
    mut main: Fiber<P>,
    starts: u32,
    code: &Code,
    shared: &mut P::Shared,
) -> Result<(Vec<Fiber<P>>, Vec<Resting<P>>), Memory>
    requires code { code.now.nodes ≡ P.theory.code }
{
    let unable = started(alloc, &mut main, starts, code, shared)?;
    Ok((alone(alloc, main)?, unable))
}

/// The last event of each fiber, ascending by number, after a round of a worker for each element of
/// `shared`. Before it the main fiber starts so many.
pub fn ends_of_round<
    R: Wait + Threads + Sync + RandomSource + AllocGlobal,
    P: Port<Shared: Send + Drop> + Send + Drop,
    G: Gate + Sync,
>(
    rt: &R,
    alloc: Global,
    total: u32,
    main: Fiber<P>,
    starts: u32,
    before: &mut P::Shared,
    shared: Vec<P::Shared>,
    code: &Code,
    gate: &G,
) -> Result<Vec<Event>, Memory>
    requires code { code.now.nodes ≡ P.theory.code }
    requires total { P.theory.total ≤ total }
    requires gate { (id : ℕ) → G.may gate.now id ≡ true → P.theory.may id ≡ true }
{
    let (able, unable) = begun(alloc, main, starts, code, before)?;
    let end = round(rt, alloc, total, able, unable, shared, code, gate)?;
    last_events(alloc, &end.fibers)
}

/// Two producers and two consumers of 200 elements each, joined by the main fiber.
const PAIRS: &[Node] = &[
    Node::Offer(0, Arg::Slot(0)),
    Node::For(0, 200, NodeId(0)),
    Node::Offer(0, Arg::Slot(1)),
    Node::For(1, 200, NodeId(2)),
    Node::Take(0),
    Node::For(2, 200, NodeId(4)),
    Node::Take(0),
    Node::For(3, 200, NodeId(6)),
    Node::Pure(Arg::Number(7)),
    Node::Pure(Arg::Number(1)),
    Node::Pure(Arg::Number(2)),
    Node::Join(3, 7, NodeId(8), 7, NodeId(9), NodeId(10)),
    Node::Pure(Arg::Number(1)),
    Node::Pure(Arg::Number(2)),
    Node::Join(2, 6, NodeId(11), 6, NodeId(12), NodeId(13)),
    Node::Pure(Arg::Number(1)),
    Node::Pure(Arg::Number(2)),
    Node::Join(1, 5, NodeId(14), 5, NodeId(15), NodeId(16)),
    Node::Pure(Arg::Number(1)),
    Node::Pure(Arg::Number(2)),
    Node::Join(0, 4, NodeId(17), 4, NodeId(18), NodeId(19)),
    Node::Start(3, NodeId(7), NodeId(20)),
    Node::Start(2, NodeId(5), NodeId(21)),
    Node::Start(1, NodeId(3), NodeId(22)),
    Node::Start(0, NodeId(1), NodeId(23)),
];

/// How they end: the main fiber gives 7, and the others 0.
static WELL: [Event; 5] = [
    Event::Ended(Outcome::Succeeded(7)),
    Event::Ended(Outcome::Succeeded(0)),
    Event::Ended(Outcome::Succeeded(0)),
    Event::Ended(Outcome::Succeeded(0)),
    Event::Ended(Outcome::Succeeded(0)),
];

/// It counts the turns of each worker, and holds the first turns of fiber 1 until another worker had a
/// turn too.
#[derive(Drop)]
struct Pair {
    turns: [AtomicU64; 4],
}

impl Pair {
    /// How many workers have had a turn.
    fn workers(&self) -> usize {
        self.turns
            .iter()
            .filter(|turns| turns.load(Ordering::SeqCst) > 0)
            .count()
    }
}

impl Gate for Pair {
    ghost may = { λ gate id. false };

    ghost answers = { λ gate worker fiber named. Unit {0} };

    fn turn(&self, worker: u32, fiber: u32) -> Option<u32> {
        if let Some(turns) = self.turns.get(worker as usize) {
            turns.fetch_add(1, Ordering::SeqCst);
        }
        if fiber == 1 {
            for _ in 0..20_000_000u32 {
                if self.workers() > 1 {
                    break;
                }
                thread::yield_now();
            }
        }
        None
    }
}

#[test]
fn four_workers_run_all_fibers_and_one_steals_from_another(rt: HostRuntime) -> Result<(), Fail> {
    let gate = Pair {
        turns: [
            AtomicU64::new(0),
            AtomicU64::new(0),
            AtomicU64::new(0),
            AtomicU64::new(0),
        ],
    };
    let seen = play(&rt, PAIRS, 4, Plan::Round(0), &gate)?;
    assert!(rt; seen.events.as_slice() == WELL.as_slice() && gate.workers() > 1);
    Ok(())
}

/// `start g (pure 1) (start h (take q) (offer q 5))`.
const WAITED: &[Node] = &[
    Node::Pure(Arg::Number(1)),
    Node::Take(0),
    Node::Offer(0, Arg::Number(5)),
    Node::Start(1, NodeId(1), NodeId(2)),
    Node::Start(0, NodeId(0), NodeId(3)),
];

static WOKEN: [Event; 3] = [
    Event::Ended(Outcome::Succeeded(0)),
    Event::Ended(Outcome::Succeeded(1)),
    Event::Ended(Outcome::Succeeded(5)),
];

#[test]
fn a_fiber_that_waits_as_the_round_begins_is_woken(rt: HostRuntime) -> Result<(), Fail> {
    let seen = play(&rt, WAITED, 1, Plan::Round(2), &Free)?;
    assert!(rt; seen.events.as_slice() == WOKEN.as_slice());
    Ok(())
}
