//! What the fibers of a script have on threads before their first step.
ghost use Rattle.std.specs.Prelude.{◌≡◌, ◌<◌, ◌≤◌, IfOk, IfSome, ℕ, true};
ghost use Rattle.fx_model.specs.Origin.{main_begin_of};
ghost use Rattle.fx_port.specs.Rows.{AreFirst};
ghost use Rattle.fx_word.specs.SeatView.{first_view};
ghost use Rattle.fx_word.specs.Words.{IsOf};

use crate::given::Given;
use crate::harness::{Answer, Trial, UNSET};
use crate::rows::fibers::{FiberCall, come_of};
use fx_fiber::main_begin;
use fx_port::{Notes, Passes, RunBrand, Sources, ThreadPort, open_queues};
use fx_queue::FiberQueue;
use fx_term::Memory;
use fx_text::Script;
use fx_word::{WordSeat, Words};
use std::alloc::{AllocGlobal, Global};
use std::marker::Brand;
use std::random::RandomSource;
use std::sync::Wait;

/// What the fibers share, and what the main one has of it.
#[derive(Drop)]
struct Opened {
    words: Words,
    queues: Vec<FiberQueue>,
    sources: Sources,
    seat: WordSeat,
    passes: Passes,
}

/// The capacity of the script's queue, of which there is at most one; 1 where there is none.
fn capacity_of(script: &Script) -> Option<u32>
    ensures { IfSome result (λ capacity. (0 < capacity) × (capacity ≤ 1024)) }
{
    let capacity = match script.queues.first() {
        Some(queue) => queue.cap,
        None => 1,
    };
    if capacity < 1 || 1024 < capacity {
        return None;
    }
    Some(capacity)
}

/// What so many fibers share, with one queue.
fn open(alloc: Global, capacity: u32, fibers: u32) -> Result<Opened, Memory>
    requires capacity { (0 < capacity) × (capacity ≤ 1024) }
    requires fibers { (0 < fibers) × (fibers ≤ 4096) }
    ensures words { IfOk result (λ all. all.words.fibers ≡ fibers) }
    ensures seat { IfOk result
        (λ all. IsOf all.seat all.words × (all.seat.view ≡ first_view fibers)) }
    ensures passes { IfOk result (λ all. AreFirst fibers all.queues.items all.passes) }
{
    let (words, seat) = Words::new(alloc, fibers)?;
    let (queues, passes) = open_queues(alloc, &[capacity], fibers)?;
    let sources = Sources::new(alloc, fibers)?;
    Ok(Opened {
        words,
        queues,
        sources,
        seat,
        passes,
    })
}

/// What the fibers of a script come to on threads, with which this is done.
pub fn made<R: Wait + RandomSource + AllocGlobal>(
    rt: &R,
    alloc: Global,
    given: &Given,
    of: FiberCall,
    trial: &Trial,
) -> Answer {
    let fibers = main_begin(alloc, &given.script.code).end;
    let Some(capacity) = capacity_of(&given.script) else {
        return UNSET;
    };
    match open(alloc, capacity, fibers) {
        Ok(opened) => made_as::<Brand, R>(rt, alloc, given, opened, of, trial),
        Err(Memory) => UNSET,
    }
}

/// The same, where a type names what they share.
fn made_as<N: RunBrand, R: Wait + RandomSource + AllocGlobal>(
    rt: &R,
    alloc: Global,
    given: &Given,
    opened: Opened,
    of: FiberCall,
    trial: &Trial,
) -> Answer
    requires code { given.now.script.code.nodes ≡ N.nodes }
    requires words { (opened.words ≡ N.words) × (0 < N.words.fibers) }
    requires queues { opened.queues.items ≡ N.queues }
    requires total { N.words.fibers ≡ (main_begin_of given.now.script.code.nodes).end }
    requires seat { IsOf opened.seat N.words × (opened.seat.view ≡ first_view N.words.fibers) }
    requires passes { AreFirst N.words.fibers N.queues opened.passes }
    requires may { (id : ℕ) → N.may id ≡ true }
{
    let Opened {
        words,
        queues,
        sources,
        seat,
        passes,
    } = opened;
    match Notes::<N>::new(alloc, words.fibers()) {
        Ok(mut notes) => {
            if let FiberCall::Port = of {
                trial.refuser.go_on();
            }
            let fibers = words.fibers();
            let port = ThreadPort::<R, N>::new(
                rt, alloc, &words, &queues, &sources, seat, passes, fibers,
            );
            trial.refuser.hold();
            match port {
                Ok(port) => come_of(rt, alloc, given, port, &mut notes, of, trial),
                Err(Memory) => Answer::Memory,
            }
        }
        Err(Memory) => UNSET,
    }
}
