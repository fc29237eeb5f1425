//! The report of fibers that are given by hand, and the test for lost ones.
ghost use Rattle.std.specs.Prelude.{◌≡◌, ◌<◌, All};
ghost use Rattle.fx_term.specs.Script.{total};
ghost use Rattle.fx_fiber.specs.Bare.{BareView};
ghost use Rattle.fx_text.specs.View.{meaning};
ghost use Rattle.fx_report.specs.Script.{script_of};
ghost use Rattle.fx_run.specs.Reported.{RanCode, AreAscending};

use crate::given::Given;
use crate::halting::parted;
use crate::harness::{Answer, OTHER, Trial, UNSET, whole_where};
use crate::refuser::Refuser;
use crate::steps::{Part, Steps};
use fx_fiber::{Bare, Fiber, FiberReport, Port, Report};
use fx_plain::replay;
use fx_run::{RunFault, report, test_for_lost};
use fx_term::{Item, Memory};
use fx_text::Script;
use std::alloc::Global;

/// Which call is refused memory.
#[derive(Clone, Copy)]
pub enum ReportCall {
    Report,
    Lost,
}

/// Whether two fibers are reported alike.
fn is_alike(one: &FiberReport, other: &FiberReport) -> bool {
    let is_same = one.id == other.id && one.parent == other.parent && one.state == other.state;
    is_same && one.trace.as_slice() == other.trace.as_slice()
}

/// Whether the fibers are reported alike, in their order.
fn are_alike(these: &[FiberReport], others: &[FiberReport]) -> bool {
    for (place, one) in these.iter().enumerate() {
        match others.get(place) {
            Some(other) if is_alike(one, other) => {}
            _ => return false,
        }
    }
    these.len() == others.len()
}

/// Whether the same is left in each queue.
fn are_left(these: &[Vec<Item>], others: &[Vec<Item>]) -> bool {
    for (place, one) in these.iter().enumerate() {
        match others.get(place) {
            Some(other) if one.as_slice() == other.as_slice() => {}
            _ => return false,
        }
    }
    these.len() == others.len()
}

/// The fibers that a script's main fiber comes to with the others, each at its end or where it waits for good.
fn replayed<P: Port + Drop>(
    alloc: Global,
    given: &Given,
    main: Fiber<P>,
    shared: &mut P::Shared,
    trial: &Trial,
) -> Option<Vec<Fiber<P>>>
    requires { given.now.script.code.nodes ≡ P.theory.code }
{
    let Ok(mut steps) = Steps::new(alloc, given, Part::None, main, shared) else {
        return None;
    };
    match trial.of(&mut steps) {
        Answer::Whole => Some(steps.fibers),
        _ => None,
    }
}

/// What a report of these fibers answers, which is to be this one.
fn told(
    alloc: Global,
    script: &Script,
    bares: Vec<Bare>,
    wanted: &Report,
    refuser: &Refuser,
) -> Answer
    requires code { RanCode script.now.code.nodes bares.items }
    requires ascending { AreAscending bares.items }
    requires below { All (λ (x : BareView). x.id < total (script_of (meaning script.now))) bares.items }
{
    let left = match replay(alloc, script, &[]) {
        Ok(replayed) => replayed.left,
        Err(Memory) => return UNSET,
    };
    refuser.go_on();
    let answer = report(alloc, script, bares, left, Vec::new(alloc), 0);
    refuser.hold();
    match answer {
        Ok(report) => whole_where(
            are_alike(&report.fibers, &wanted.fibers) && are_left(&report.left, &wanted.left),
        ),
        Err(RunFault::Memory) => Answer::Memory,
        Err(_) => OTHER,
    }
}

/// What the test for lost fibers answers, of which there are none.
fn tested(alloc: Global, script: &Script, bares: &[Bare], refuser: &Refuser) -> Answer
    requires ascending { AreAscending bares.now }
    requires below { All (λ (x : BareView). x.id < total (script_of (meaning script.now))) bares.now }
{
    refuser.go_on();
    let answer = test_for_lost(alloc, script, bares);
    refuser.hold();
    match answer {
        Ok(()) => Answer::Whole,
        Err(RunFault::Memory) => Answer::Memory,
        Err(_) => OTHER,
    }
}

/// What the call answers on the fibers that this one comes to with the others.
pub fn made<P: Port + Drop>(
    alloc: Global,
    given: &Given,
    main: Fiber<P>,
    shared: &mut P::Shared,
    of: ReportCall,
    trial: &Trial,
) -> Answer
    requires { given.now.script.code.nodes ≡ P.theory.code }
{
    let script = &given.script;
    let Some(fibers) = replayed(alloc, given, main, shared, trial) else {
        return UNSET;
    };
    let Ok(bares) = parted(alloc, &script.code, script.total(), fibers) else {
        return UNSET;
    };
    match of {
        ReportCall::Report => told(alloc, script, bares, &given.report, &trial.refuser),
        ReportCall::Lost => tested(alloc, script, &bares, &trial.refuser),
    }
}
