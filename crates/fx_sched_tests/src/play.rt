//! Plays a script over the port behind one lock.
ghost use Rattle.std.specs.Prelude.{◌≡◌, ◌≤◌, ℕ, true};
ghost use Rattle.fx_model.specs.Origin.{main_begin_of};

use crate::board::Board;
use crate::locked_port::main_fiber;
use crate::lot::ends_in_lot;
use crate::notes::Notes;
use crate::rounds::ends_of_round;
use crate::turns::turns;
use fx_fiber::{Fiber, Port, main_begin};
use fx_sched::Gate;
use fx_term::{Code, CodeBrand, Event, Memory, Node};
use std::alloc::{AllocGlobal, Global};
use std::marker::Brand;
use std::random::RandomSource;
use std::sync::{Mutex, Wait};
use std::thread::Threads;

/// How the fibers of a script go.
#[derive(Clone, Copy)]
pub enum Plan {
    /// The main one alone, by turns.
    Turns,
    /// In a lot, the main one after it was woken twice.
    Lot,
    /// The main one starts so many, and these go on until each waits or has ended. Then four workers run
    /// all of them.
    Round(u32),
}

/// What is seen of them.
#[derive(Drop)]
pub struct Seen {
    /// How many turns of the main fiber go on before that in which it ends; else 0.
    pub pending: u32,
    /// Its events, where it goes by turns; else the last one of each fiber, ascending by number.
    pub events: Vec<Event>,
}

/// Plays a script of these nodes, with one queue of this capacity, and each turn at this gate.
pub fn play<R: Wait + Threads + Send + Sync + RandomSource + AllocGlobal, G: Gate + Sync>(
    rt: &R,
    nodes: &[Node],
    capacity: usize,
    plan: Plan,
    gate: &G,
) -> Result<Seen, Memory> {
    let alloc = rt.alloc();
    let Ok(code) = Code::build(alloc, Vec::from_slice(alloc, nodes)?, 1) else {
        return Err(Memory);
    };
    play_as::<Brand, R, G>(rt, alloc, &code, capacity, plan, gate)
}

/// The same, where a type names the code.
fn play_as<
    J: CodeBrand + Send + Sync,
    R: Wait + Threads + Send + Sync + RandomSource + AllocGlobal,
    G: Gate + Sync,
>(rt: &R, alloc: Global, code: &Code, capacity: usize, plan: Plan, gate: &G) -> Result<Seen, Memory>
    requires { code.now.nodes ≡ J.nodes }
{
    let board = Mutex::new(Board::new(alloc, main_begin(alloc, code).end, capacity)?);
    play_on::<J, R, G>(rt, alloc, &board, code, plan, gate)
}

/// The same on this board.
fn play_on<
    J: CodeBrand + Send + Sync,
    R: Wait + Threads + Send + Sync + RandomSource + AllocGlobal,
    G: Gate + Sync,
>(
    rt: &R,
    alloc: Global,
    board: &Mutex<Board>,
    code: &Code,
    plan: Plan,
    gate: &G,
) -> Result<Seen, Memory>
    requires { code.now.nodes ≡ J.nodes }
{
    let total = main_begin(alloc, code).end;
    let notes: Notes<J> = Notes::new(alloc, total)?;
    let shared = notes_of_four(alloc, total)?;
    let main = main_fiber::<R, J>(rt, board, alloc, code)?;
    play_over(rt, alloc, total, main, notes, shared, code, plan, gate)
}

fn notes_of_four<J: CodeBrand>(alloc: Global, total: u32) -> Result<Vec<Notes<J>>, Memory>
    requires { total ≤ (main_begin_of J.nodes).end }
{
    let mut all = Vec::new(alloc);
    for _ in 0..4u32 {
        all.push(Notes::new(alloc, total)?)?;
    }
    Ok(all)
}

/// The same over a port of any kind, so that nothing below is proved of one kind. Main has not begun, and
/// the workers share these, once it and those that it starts went on with the first.
fn play_over<
    R: Wait + Threads + Sync + RandomSource + AllocGlobal,
    P: Port<Shared: Send + Drop> + Send + Drop,
    G: Gate + Sync,
>(
    rt: &R,
    alloc: Global,
    total: u32,
    main: Fiber<P>,
    mut before: P::Shared,
    shared: Vec<P::Shared>,
    code: &Code,
    plan: Plan,
    gate: &G,
) -> Result<Seen, Memory>
    requires code { code.now.nodes ≡ P.theory.code }
    requires total { P.theory.total ≤ total }
    requires may { (id : ℕ) → P.theory.may id ≡ true }
{
    let events = match plan {
        Plan::Turns => return turns(rt, main, code, &mut before, gate),
        Plan::Lot => ends_in_lot(rt, alloc, total, main, code, &mut before)?,
        Plan::Round(starts) => ends_of_round(
            rt,
            alloc,
            total,
            main,
            starts,
            &mut before,
            shared,
            code,
            gate,
        )?,
    };
    Ok(Seen { pending: 0, events })
}
