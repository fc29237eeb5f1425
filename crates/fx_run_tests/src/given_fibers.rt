//! What `report` answers to fibers that are given to it by hand.
ghost use Rattle.std.specs.Prelude.{◌≡◌, IfOk, []};
ghost use Rattle.fx_model.specs.Origin.{main_begin_of};
ghost use Rattle.fx_fiber.specs.PortFacts.{first_facts};

use fx_fiber::{Bare, Fiber, Port, Report, State};
use fx_plain::PlainWorld;
use fx_run::{RunFault, report};
use fx_term::{Code, CodeBrand, Event, Memory, Outcome, Stamped};
use fx_text::{Script, parse};
use std::alloc::Global;
use std::marker::Brand;
use std::test::Fail;

/// Whether the main fiber is given, and after how many steps at most.
#[derive(Clone, Copy, Drop)]
enum Given {
    Not,
    After(u32),
}

/// Lets a fiber make so many steps at most, and drops the children that it starts.
fn go_on<P: Port + Drop>(
    fiber: &mut Fiber<P>,
    code: &Code,
    shared: &mut P::Shared,
    steps: u32,
) -> Result<(), Memory>
    requires { code.now.nodes ≡ P.theory.code }
{
    for _ in 0..steps {
        if fiber.has_ended() {
            return Ok(());
        }
        if fiber.step(code, shared).is_err() {
            return Err(Memory);
        }
    }
    Ok(())
}

/// The main fiber with this port, after so many steps at most.
fn parted<P: Port + Drop>(
    alloc: Global,
    code: &Code,
    port: P,
    shared: &mut P::Shared,
    steps: u32,
) -> Result<Bare, Memory>
    requires code { code.now.nodes ≡ P.theory.code }
    requires facts { P.theory.facts port ≡ first_facts 0 (main_begin_of code.now.nodes) }
    requires total { (main_begin_of code.now.nodes).end ≡ P.theory.total }
    requires fresh { P.theory.agrees port [] }
    ensures { IfOk result (λ bare. bare.nodes ≡ code.now.nodes) }
{
    let mut main = Fiber::new(alloc, code, port)?;
    go_on(&mut main, code, shared, steps)?;
    let (bare, _port) = main.part(code);
    Ok(bare)
}

/// A script's main fiber after so many steps at most.
fn main_after<J: CodeBrand>(alloc: Global, script: &Script, steps: u32) -> Result<Bare, Memory>
    requires { script.now.code.nodes ≡ J.nodes }
    ensures { IfOk result (λ bare. bare.nodes ≡ script.now.code.nodes) }
{
    match PlainWorld::new::<J>(alloc, script) {
        Ok((mut world, port)) => parted(alloc, &script.code, port, &mut world, steps),
        Err(Memory) => Err(Memory),
    }
}

/// What `report` answers to the main fiber alone.
fn reported<J: CodeBrand>(alloc: Global, script: &Script, given: Given) -> Result<Report, RunFault>
    requires { script.now.code.nodes ≡ J.nodes }
{
    let mut bares = Vec::new(alloc);
    if let Given::After(steps) = given {
        let bare = main_after::<J>(alloc, script, steps)?;
        if bare.id() < script.total() && bares.push(bare).is_err() {
            return Err(RunFault::Memory);
        }
    }
    report(alloc, script, bares, Vec::new(alloc), Vec::new(alloc), 0)
}

/// The answer to the main fiber of the script that a text says.
fn answered(alloc: Global, text: &str, given: Given) -> Result<Result<Report, RunFault>, Fail> {
    let script = parse(alloc, text.as_bytes())?;
    Ok(reported::<Brand>(alloc, &script, given))
}

#[test]
fn what_is_missing_and_what_could_go_on_is_told(rt: HostRuntime) -> Result<(), Fail> {
    for (text, given, fault) in [
        ("(main (pure 5))", Given::Not, RunFault::Lost(0)),
        ("(main (pure 5))", Given::After(0), RunFault::Unsettled(0)),
        (
            "(main (start a (pure 1) (pure 2)))",
            Given::After(9),
            RunFault::Lost(1),
        ),
    ] {
        assert_eq!(rt; answered(rt.alloc(), text, given)?.err(), Some(fault));
    }
    Ok(())
}

/// Scripts, the state of the main fiber at the end, and the first event of its trace with its stamp.
static REPORTED: [(&str, State, Option<Stamped>); 2] = [
    (
        "(main (pure 5))",
        State::Ended,
        Some(Stamped {
            event: Event::Ended(Outcome::Succeeded(5)),
            stamp: 1,
        }),
    ),
    ("(main (never))", State::Blocked, None),
];

#[test]
fn what_has_ended_or_waits_is_reported(rt: HostRuntime) -> Result<(), Fail> {
    for (text, state, first) in &REPORTED {
        let report = answered(rt.alloc(), text, Given::After(9))??;
        let [main] = report.fibers.as_slice() else {
            panic!(rt; "the main fiber alone is reported")
        };
        assert_eq!(rt; (&main.state, main.trace.first()), (state, first.as_ref()));
    }
    Ok(())
}
