//! Plays a script over words and rings.
ghost use Rattle.std.specs.Prelude.{◌≡◌, ◌<◌, ◌≤◌, [], IfOk, ℕ, true};
ghost use Rattle.fx_fiber.specs.PortFacts.{first_facts};
ghost use Rattle.fx_model.specs.Origin.{main_begin_of};
ghost use Rattle.fx_port.specs.Rows.{AreFirst};
ghost use Rattle.fx_word.specs.SeatView.{first_view};
ghost use Rattle.fx_word.specs.Words.{IsOf};

use fx_fiber::{Fiber, Port, Stepped, main_begin};
use fx_port::{Notes, Passes, RunBrand, Sources, ThreadPort, open_queues};
use fx_queue::FiberQueue;
use fx_term::{Code, Event, Memory, Node, Stamped};
use fx_word::{WordSeat, Words};
use std::alloc::Global;
use std::marker::Brand;
use std::process::Abort;
use std::sync::Wait;
use std::test::Fail;
use std::thread;
use std::thread::Threads;

/// At least as many as one move wakes here.
const MOST: u32 = 4;

/// What is done next.
#[derive(Clone, Copy)]
pub enum Move {
    /// The fiber of this number, if it has not ended, makes a step. Where it waits it is registered.
    Step(usize),
    /// The fiber of this number is requested from outside, by the port of the main fiber.
    Request(u32),
}

/// How the fibers of a script go.
#[derive(Clone, Copy)]
pub enum Plan<'a> {
    /// By these moves, one after the other. A fiber has the number of its start.
    Moves(&'a [Move]),
    /// The main fiber and the one that its first step starts, each on a thread of its own till it has
    /// ended.
    TwoThreads,
}

/// What is seen of a run: the traces of its fibers by their numbers, and, where it goes by moves, the number
/// of each move, counted from 0, with each fiber that it wakes, ascending.
#[derive(Drop)]
pub struct Seen {
    pub traces: Vec<Vec<Stamped>>,
    pub woken: Vec<(usize, u32)>,
}

/// What the fibers share, and what the main one has of it.
#[derive(Drop)]
struct Opened {
    words: Words,
    queues: Vec<FiberQueue>,
    sources: Sources,
    seat: WordSeat,
    passes: Passes,
}

/// What so many fibers share, with one queue of this capacity.
fn open(alloc: Global, capacity: u32, fibers: u32) -> Result<Opened, Memory>
    requires capacity { (0 < capacity) × (capacity ≤ 1024) }
    requires fibers { (0 < fibers) × (fibers ≤ 4096) }
    ensures words { IfOk result (λ all. all.words.fibers ≡ fibers) }
    ensures seat { IfOk result
        (λ all. IsOf all.seat all.words × (all.seat.view ≡ first_view fibers)) }
    ensures passes { IfOk result (λ all. AreFirst fibers all.queues.items all.passes) }
{
    let (words, seat) = Words::new(alloc, fibers)?;
    let (queues, passes) = open_queues(alloc, &[capacity], fibers)?;
    let sources = Sources::new(alloc, fibers)?;
    Ok(Opened {
        words,
        queues,
        sources,
        seat,
        passes,
    })
}

/// Plays a script of these nodes, with one queue of this capacity.
pub fn play<R: Threads + Wait + Sync>(
    rt: &R,
    alloc: Global,
    nodes: &[Node],
    capacity: u32,
    plan: Plan<'_>,
) -> Result<Seen, Memory>
    requires { (0 < capacity) × (capacity ≤ 1024) }
{
    let Ok(code) = Code::build(alloc, Vec::from_slice(alloc, nodes)?, 1) else {
        return Err(Memory);
    };
    let opened = open(alloc, capacity, main_begin(alloc, &code).end)?;
    play_as::<Brand, R>(rt, alloc, &code, opened, plan)
}

/// The same, where a type names what the fibers share.
fn play_as<N: RunBrand + Send + Sync, R: Threads + Wait + Sync>(
    rt: &R,
    alloc: Global,
    code: &Code,
    opened: Opened,
    plan: Plan<'_>,
) -> Result<Seen, Memory>
    requires code { code.now.nodes ≡ N.nodes }
    requires words { (opened.words ≡ N.words) × (0 < N.words.fibers) }
    requires queues { opened.queues.items ≡ N.queues }
    requires total { N.words.fibers ≡ (main_begin_of code.now.nodes).end }
    requires seat { IsOf opened.seat N.words × (opened.seat.view ≡ first_view N.words.fibers) }
    requires passes { AreFirst N.words.fibers N.queues opened.passes }
    requires may { (id : ℕ) → N.may id ≡ true }
{
    let mine = Notes::<N>::new(alloc, opened.words.fibers())?;
    let theirs = Notes::<N>::new(alloc, opened.words.fibers())?;
    let Opened {
        words,
        queues,
        sources,
        seat,
        passes,
    } = opened;
    let fibers = words.fibers();
    let port = ThreadPort::<R, N>::new(rt, alloc, &words, &queues, &sources, seat, passes, fibers)?;
    play_over(rt, alloc, code, port, mine, theirs, plan)
}

/// The same over a port of any kind, so that nothing below is proved of one kind. Its fiber is the main one, and
/// has not begun.
fn play_over<R: Threads + Wait + Sync, P: Port<Shared: Send + Drop> + Send + Drop>(
    rt: &R,
    alloc: Global,
    code: &Code,
    port: P,
    mine: P::Shared,
    theirs: P::Shared,
    plan: Plan<'_>,
) -> Result<Seen, Memory>
    requires code { code.now.nodes ≡ P.theory.code }
    requires facts { P.theory.facts port ≡ first_facts 0 (main_begin_of code.now.nodes) }
    requires total { (main_begin_of code.now.nodes).end ≡ P.theory.total }
    requires fresh { P.theory.agrees port [] }
    requires may { (id : ℕ) → P.theory.may id ≡ true }
{
    let main = Fiber::new(alloc, code, port)?;
    match plan {
        Plan::Moves(moves) => by_moves(alloc, code, main, mine, moves),
        Plan::TwoThreads => beside(rt, alloc, code, main, mine, theirs),
    }
}

/// A step of the fiber, if it has not ended, and the fiber that it starts. Where it waits it is registered.
fn step<P: Port + Drop>(
    fiber: &mut Fiber<P>,
    code: &Code,
    shared: &mut P::Shared,
) -> Result<Option<Fiber<P>>, Memory>
    requires code { code.now.nodes ≡ P.theory.code }
{
    if fiber.has_ended() {
        return Ok(None);
    }
    match fiber.step(code, shared)? {
        Stepped::Child(child) => Ok(Some(child)),
        Stepped::Waits(source) => {
            fiber.wait_on(shared, source);
            Ok(None)
        }
        _ => Ok(None),
    }
}

/// Makes a move, where there is such a fiber.
fn make<P: Port + Drop>(
    fibers: &mut Vec<Fiber<P>>,
    code: &Code,
    shared: &mut P::Shared,
    next: Move,
) -> Result<(), Memory>
    requires code { code.now.nodes ≡ P.theory.code }
    requires may { (id : ℕ) → P.theory.may id ≡ true }
{
    match next {
        Move::Step(number) => {
            if let Some(fiber) = fibers.get_mut(number) {
                if let Some(child) = step(fiber, code, shared)? {
                    fibers.push(child)?;
                }
            }
        }
        Move::Request(id) => {
            if let Some(main) = fibers.first_mut() {
                main.outside(shared, id);
            }
        }
    }
    Ok(())
}

/// Lays those that the move of this number wakes to the others.
fn note_woken<P: Port>(
    shared: &mut P::Shared,
    number: usize,
    woken: &mut Vec<(usize, u32)>,
) -> Result<(), Memory> {
    for _ in 0..MOST {
        let Some(id) = P::woken(shared) else {
            break;
        };
        woken.push((number, id))?;
    }
    Ok(())
}

/// The traces of the fibers, one after the other.
fn traces_of<P: Port + Drop>(
    alloc: Global,
    fibers: Vec<Fiber<P>>,
) -> Result<Vec<Vec<Stamped>>, Memory> {
    let mut traces = Vec::new(alloc);
    for fiber in fibers {
        traces.push(fiber.into_trace())?;
    }
    Ok(traces)
}

fn by_moves<P: Port<Shared: Drop> + Drop>(
    alloc: Global,
    code: &Code,
    main: Fiber<P>,
    mut shared: P::Shared,
    moves: &[Move],
) -> Result<Seen, Memory>
    requires code { code.now.nodes ≡ P.theory.code }
    requires may { (id : ℕ) → P.theory.may id ≡ true }
{
    let mut woken = Vec::new(alloc);
    let mut fibers = Vec::new(alloc);
    fibers.push(main)?;
    for number in 0..moves.len() {
        make(&mut fibers, code, &mut shared, moves[number])?;
        note_woken::<P>(&mut shared, number, &mut woken)?;
    }
    woken.sort_unstable();
    let traces = traces_of(alloc, fibers)?;
    Ok(Seen { traces, woken })
}

/// Steps the main fiber once, and then it and the fiber that it started, each on its own thread.
fn beside<R: Threads + Wait + Sync, P: Port<Shared: Send + Drop> + Send + Drop>(
    rt: &R,
    alloc: Global,
    code: &Code,
    mut main: Fiber<P>,
    mut mine: P::Shared,
    theirs: P::Shared,
) -> Result<Seen, Memory>
    requires code { code.now.nodes ≡ P.theory.code }
{
    let mut traces = Vec::new(alloc);
    if let Some(other) = step(&mut main, code, &mut mine)? {
        let (one, other) = on_two_threads(rt, code, main, other, mine, theirs);
        traces.push(one?)?;
        traces.push(other?)?;
    }
    let woken = Vec::new(alloc);
    Ok(Seen { traces, woken })
}

/// The traces of two fibers that are stepped till they have ended.
fn on_two_threads<R: Threads + Wait + Sync, P: Port<Shared: Send + Drop> + Send + Drop>(
    rt: &R,
    code: &Code,
    one: Fiber<P>,
    other: Fiber<P>,
    mut mine: P::Shared,
    mut theirs: P::Shared,
) -> (Result<Vec<Stamped>, Memory>, Result<Vec<Stamped>, Memory>)
    requires code { code.now.nodes ≡ P.theory.code }
{
    thread::join(
        rt,
        move || -> Result<Vec<Stamped>, Memory>
            requires { code.now.nodes ≡ P.theory.code }
        { to_end(rt, code, one, &mut mine) },
        move || -> Result<Vec<Stamped>, Memory>
            requires { code.now.nodes ≡ P.theory.code }
        { to_end(rt, code, other, &mut theirs) },
    )
}

/// Steps the fiber till it has ended. Those that it starts make no step.
fn to_end<R: Wait, P: Port + Drop>(
    rt: &R,
    code: &Code,
    mut fiber: Fiber<P>,
    shared: &mut P::Shared,
) -> Result<Vec<Stamped>, Memory>
    requires code { code.now.nodes ≡ P.theory.code }
{
    for _ in rt.forever() {
        if fiber.has_ended() {
            break;
        }
        let _child = step(&mut fiber, code, shared)?;
        thread::yield_now();
    }
    Ok(fiber.into_trace())
}

/// What is to be seen of a run.
pub enum Told {
    /// The trace of the main fiber, each event with its stamp.
    Trace(&'static [(Event, u64)]),
    /// The number of each move that wakes a fiber, counted from 0, and whom it wakes.
    Woken(&'static [(usize, u32)]),
}

/// A script with a queue of capacity 1, how it goes, and what is seen then.
pub struct Row {
    pub what: &'static str,
    pub nodes: &'static [Node],
    pub moves: &'static [Move],
    pub told: Told,
}

/// Whether the trace has these events with these stamps.
fn is_trace(trace: &[Stamped], told: &[(Event, u64)]) -> bool {
    let mut all = trace.len() == told.len();
    for (one, &(event, stamp)) in trace.iter().zip(told) {
        all = all && *one == Stamped { event, stamp };
    }
    all
}

fn is_seen(seen: &Seen, told: &Told) -> bool {
    match *told {
        Told::Trace(trace) => match seen.traces.first() {
            Some(main) => is_trace(main, trace),
            None => false,
        },
        Told::Woken(woken) => seen.woken.as_slice() == woken,
    }
}

/// Sees that each script goes as it is told.
pub fn assert_rows<R: Threads + Wait + Sync + Abort>(
    rt: &R,
    alloc: Global,
    rows: &[Row],
) -> Result<(), Fail> {
    for row in rows {
        let seen = play(rt, alloc, row.nodes, 1, Plan::Moves(row.moves))?;
        assert!(rt; is_seen(&seen, &row.told), "{}", row.what);
    }
    Ok(())
}
