//! The loop of a worker that is alone.
ghost use Rattle.std.specs.Prelude.{◌≡◌, ◌≤◌, ℕ, true};

use crate::given::Given;
use crate::harness::{Answer, UNSET, whole_where};
use crate::refuser::Refuser;
use crate::steps::are_told;
use fx_fiber::{Fiber, Port, Report};
use fx_sched::{Free, Hand, Lot, Work, WorkerEnd, work};
use fx_term::Memory;
use std::alloc::{AllocGlobal, Global};
use std::random::RandomSource;
use std::sync::Wait;

/// What a worker alone answers that has this fiber in its deque, and to what the fibers come.
pub fn works<R: Wait + RandomSource + AllocGlobal, P: Port + Drop>(
    rt: &R,
    alloc: Global,
    total: u32,
    given: &Given,
    main: Fiber<P>,
    shared: &mut P::Shared,
    refuser: &Refuser,
) -> Answer
    requires code { given.now.script.code.nodes ≡ P.theory.code }
    requires total { P.theory.total ≤ total }
    requires may { (id : ℕ) → P.theory.may id ≡ true }
{
    match Work::new(alloc, 1) {
        Ok((all, mut hands)) => {
            let Some(mut hand) = hands.pop() else {
                return UNSET;
            };
            if hand.push(main).is_err() {
                return UNSET;
            }
            goes_on(rt, alloc, total, given, &all, &mut hand, shared, refuser)
        }
        Err(Memory) => UNSET,
    }
}

/// The same of a worker's hand.
fn goes_on<R: Wait + RandomSource + AllocGlobal, P: Port + Drop>(
    rt: &R,
    alloc: Global,
    total: u32,
    given: &Given,
    all: &Work<P>,
    hand: &mut Hand<P>,
    shared: &mut P::Shared,
    refuser: &Refuser,
) -> Answer
    requires code { given.now.script.code.nodes ≡ P.theory.code }
    requires total { P.theory.total ≤ total }
    requires may { (id : ℕ) → P.theory.may id ≡ true }
{
    match Lot::new(alloc, total) {
        Ok(lot) => {
            refuser.go_on();
            let end = work(rt, 0, hand, all, &lot, &given.script.code, shared, &Free);
            refuser.hold();
            match end {
                WorkerEnd::Memory(..) => Answer::Memory,
                WorkerEnd::Done => came_to(alloc, lot, &given.report),
            }
        }
        Err(Memory) => UNSET,
    }
}

/// Whether the fibers that a worker left came to this report.
fn came_to<P: Port + Drop>(alloc: Global, lot: Lot<P>, report: &Report) -> Answer {
    match lot.empty(alloc) {
        Ok(fibers) => whole_where(are_told(&fibers, report)),
        Err(Memory) => UNSET,
    }
}
