//! What is done with the main fiber of a script, over a port of any kind: so nothing of it is proved once more for
//! each.
ghost use Rattle.std.specs.Prelude.{◌≡◌, ◌≤◌, [], ℕ, true};
ghost use Rattle.fx_model.specs.Origin.{main_begin_of};
ghost use Rattle.fx_fiber.specs.PortFacts.{first_facts};

use crate::given::Given;
use crate::harness::{Answer, Trial, UNSET, whole_where};
use crate::refuser::Refuser;
use crate::rows::alone::works;
use crate::rows::reports;
use crate::steps::{Part, Steps};
use fx_fiber::{Fiber, Port, main_begin};
use fx_sched::Lot;
use fx_term::Memory;
use std::alloc::{AllocGlobal, Global};
use std::random::RandomSource;
use std::sync::Wait;

/// What is done, and refused memory.
#[derive(Clone, Copy)]
pub enum FiberCall {
    /// The world of one thread is made, or the port of a fiber on threads.
    World,
    Port,
    /// The main fiber is made.
    New,
    /// A lot is made for such fibers.
    NewLot,
    /// A lot with the main fiber in it is emptied.
    EmptyLot,
    /// Each fiber makes its steps.
    Steps(Part),
    /// A worker that is alone has them go on.
    Work,
    /// They are reported.
    Report(reports::ReportCall),
}

/// What a lot answers as it is emptied, in which there is one fiber.
fn emptied<P: Port + Drop>(alloc: Global, lot: Lot<P>, of: FiberCall, refuser: &Refuser) -> Answer {
    if let FiberCall::EmptyLot = of {
        refuser.go_on();
    }
    let fibers = lot.empty(alloc);
    refuser.hold();
    match fibers {
        Ok(fibers) => whole_where(fibers.len() == 1),
        Err(Memory) => Answer::Memory,
    }
}

/// What a new lot answers, and as it is emptied with this fiber in it.
fn lots<R: Wait, P: Port + Drop>(
    rt: &R,
    alloc: Global,
    total: u32,
    main: Fiber<P>,
    of: FiberCall,
    refuser: &Refuser,
) -> Answer
    requires { P.theory.total ≤ total }
{
    if let FiberCall::NewLot = of {
        refuser.go_on();
    }
    let lot = Lot::<P>::new(alloc, total);
    refuser.hold();
    match lot {
        Ok(lot) => {
            if lot.settle(rt, main).is_some() {
                return UNSET;
            }
            emptied(alloc, lot, of, refuser)
        }
        Err(Memory) => Answer::Memory,
    }
}

/// What the steps of the fibers come to.
fn steps<P: Port + Drop>(
    alloc: Global,
    given: &Given,
    part: Part,
    main: Fiber<P>,
    shared: &mut P::Shared,
    trial: &Trial,
) -> Answer
    requires { given.now.script.code.nodes ≡ P.theory.code }
{
    match Steps::new(alloc, given, part, main, shared) {
        Ok(mut steps) => trial.of(&mut steps),
        Err(Memory) => UNSET,
    }
}

/// What the main fiber comes to with which this is done. One that is new has no event.
fn come_of_main<R: Wait + RandomSource + AllocGlobal, P: Port + Drop>(
    rt: &R,
    alloc: Global,
    given: &Given,
    main: Fiber<P>,
    shared: &mut P::Shared,
    of: FiberCall,
    trial: &Trial,
) -> Answer
    requires code { given.now.script.code.nodes ≡ P.theory.code }
    requires total { P.theory.total ≤ (main_begin_of given.now.script.code.nodes).end }
    requires may { (id : ℕ) → P.theory.may id ≡ true }
{
    let total = main_begin(alloc, &given.script.code).end;
    match of {
        FiberCall::World | FiberCall::Port | FiberCall::New => whole_where(
            main.trace().is_empty() && main.id() == 0,
        ),
        FiberCall::NewLot | FiberCall::EmptyLot => lots(rt, alloc, total, main, of, &trial.refuser),
        FiberCall::Steps(part) => steps(alloc, given, part, main, shared, trial),
        FiberCall::Work => works(rt, alloc, total, given, main, shared, &trial.refuser),
        FiberCall::Report(of) => reports::made(alloc, given, main, shared, of, trial),
    }
}

/// What a port comes to, of a main fiber that has not begun, with which this is done.
pub fn come_of<R: Wait + RandomSource + AllocGlobal, P: Port + Drop>(
    rt: &R,
    alloc: Global,
    given: &Given,
    port: P,
    shared: &mut P::Shared,
    of: FiberCall,
    trial: &Trial,
) -> Answer
    requires code { given.now.script.code.nodes ≡ P.theory.code }
    requires facts { P.theory.facts port ≡ first_facts 0 (main_begin_of given.now.script.code.nodes) }
    requires total { (main_begin_of given.now.script.code.nodes).end ≡ P.theory.total }
    requires fresh { P.theory.agrees port [] }
    requires may { (id : ℕ) → P.theory.may id ≡ true }
{
    if let FiberCall::New = of {
        trial.refuser.go_on();
    }
    let main = Fiber::new(alloc, &given.script.code, port);
    trial.refuser.hold();
    match main {
        Ok(main) => come_of_main(rt, alloc, given, main, shared, of, trial),
        Err(Memory) => Answer::Memory,
    }
}
